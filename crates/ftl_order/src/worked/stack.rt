ghost use Rattle.ftl_model.specs.layout.Stack.{stack};
ghost use Rattle.ftl_model.specs.layout.Tree.{Forest};
ghost use Rattle.ftl_model.specs.layout.TreeOf.{IsTreeOf};
ghost use Rattle.ftl_order.specs.orders.OneTable.{ExactlyOneTable, ExactlyOneList};

/// A law: exactly one table solves a tree of the stack grammar, of any size.
pub fn exactly_one_stack_table()
    ensures one_table { (t : Forest) → IsTreeOf stack t → ExactlyOneTable stack t }
{}

/// A law: exactly one list of values solves a tree of the stack grammar, of any size.
pub fn exactly_one_stack_list()
    ensures one_list { (t : Forest) → IsTreeOf stack t → ExactlyOneList stack t }
{}

use ftl_base::{CodeStack, Engine, Truth, Val};
use std::test::Fail;

#[test]
fn the_last_entry_comes_off_first(rt: HostRuntime) -> Result<(), Fail> {
    let mut stack = CodeStack::new(rt.alloc(), 2)?;
    assert_eq!(rt; stack.room(), 2);
    stack.push_val(Val::num(7));
    stack.push_truth(Truth::No);
    assert_eq!(rt; stack.pop_truth(), Truth::No);
    stack.push_val(Val::overflow());
    assert_eq!(rt; stack.pop_val(), Val::overflow());
    assert_eq!(rt; stack.pop_val(), Val::num(7));
    stack.push_truth(Truth::Yes);
    stack.clear();
    stack.push_val(Val::num(-3));
    assert_eq!(rt; stack.pop_val(), Val::num(-3));
    Ok(())
}

/// An engine whose code is one number.
#[derive(Drop)]
struct Constant {
    number: i64,
}

impl Engine for Constant {
    ghost use Rattle.std.specs.Prelude.{◌≡◌, ◌<◌};
    ghost use Rattle.ftl_model.specs.layout.Values.{value_of, wide};

    ghost may_run = { λ _ room. 0 < room };

    ghost may_give = { λ s v. v ≡ value_of wide s.number };

    fn run(self, values: &mut [Val], truths: &mut [Truth]) -> Val {
        values[0] = Val::num(self.number);
        truths[0] = Truth::Yes;
        values[0]
    }
}

#[test]
fn a_lent_stack_is_empty_afterwards(rt: HostRuntime) -> Result<(), Fail> {
    let mut stack = CodeStack::new(rt.alloc(), 1)?;
    stack.push_truth(Truth::No);
    assert_eq!(rt; stack.lend(Constant { number: 41 }), Val::num(41));
    assert_eq!(rt; stack.room(), 1);
    stack.push_val(Val::num(5));
    assert_eq!(rt; stack.pop_val(), Val::num(5));
    Ok(())
}

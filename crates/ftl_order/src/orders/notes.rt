ghost use Rattle.std.specs.Prelude.{◌≡◌, [], ◌∷◌};
ghost use Rattle.ftl_model.specs.layout.AttributeGrammar.{RuleName, for_self, for_child, self_read};
ghost use Rattle.ftl_model.specs.layout.Path.{top, down};
ghost use Rattle.ftl_model.specs.layout.Solves.{instance_of};
ghost use Rattle.ftl_model.specs.layout.Notes.{notes, two_items, no_items};
ghost use Rattle.ftl_order.specs.orders.Lawful.{IsLawful};
ghost use Rattle.ftl_order.specs.orders.Ordered.{IsOrdered};
ghost use Rattle.ftl_order.specs.orders.Pairs.{Where, parent_class, Writes};
ghost use Rattle.ftl_order.specs.orders.LegalOrder.{IsLegalOrder};
ghost use Rattle.ftl_order.specs.orders.Reads.{reads_of};
ghost use Rattle.ftl_order.specs.orders.NotesOrders.{notes_schedule, notes_order, size_twice};

/// A law: the worked grammar of notes is lawful, with a local and two children of two interfaces,
/// and a schedule is ordered for it.
pub fn notes_are_lawful()
    ensures lawful { IsLawful notes }
    ensures ordered { IsOrdered notes notes_schedule }
{}

/// A law: an inherited attribute is written by the rules for children of its interface alone.
pub fn writers_of_a_shift()
    ensures shift { (runs_at : Where) (w : RuleName) → Writes notes 2 (self_read 4) runs_at w
        → (runs_at ≡ parent_class) × (w ≡ for_child 0 0 4) }
{}

/// A law: what the steps of a sheet read: a fold what its step reads of each kid, once for each.
pub fn reads_of_a_sheet()
    ensures total { reads_of notes two_items (instance_of top 0)
        ≡ instance_of (down 1 0 top) 2 ∷ instance_of top 7
        ∷ instance_of (down 1 1 top) 2 ∷ instance_of top 7 ∷ [] }
    ensures shift { reads_of notes two_items (instance_of (down 0 0 top) 4)
        ≡ instance_of (down 1 1 top) 2 ∷ [] }
    ensures empty_total { reads_of notes no_items (instance_of top 0) ≡ [] }
    ensures input { reads_of notes two_items (instance_of (down 1 0 top) 3) ≡ [] }
{}

/// A law: an order of the steps of a sheet without items is legal, and no order has a step twice.
pub fn orders_of_a_sheet()
    ensures legal { IsLegalOrder notes no_items notes_schedule notes_order }
    ensures twice { IsLegalOrder notes no_items notes_schedule size_twice → ⊥ }
{}

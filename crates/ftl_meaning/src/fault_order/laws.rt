//! Laws on grammars with two faults.

ghost use Rattle.std.specs.Prelude.{◌≡◌, [], ◌∷◌, None, Some, codes, map};
ghost use Rattle.ftl_meaning.specs.faults.FirstFault.{first_fault};
ghost use Rattle.ftl_meaning.specs.faults.Worked.{num, of_self, self_is};
ghost use Rattle.ftl_meaning.specs.declared.faults.fault.GrammarFault.TheVariants as fault;
ghost use Rattle.ftl_meaning.specs.fault_order.Faulty.{bad_form_and_read, bad_read, class_d};
ghost use Rattle.ftl_meaning.specs.fault_order.Faulty.{fault_of};
ghost use Rattle.ftl_meaning.specs.fault_order.Faulty.{faulty, later, points, with_rules};

/// A law: of two faults of different points the one of the earlier point is the first; each comes
/// by itself, and without them there is none.
pub fn first_of_two_faults()
    ensures none { first_fault (faulty 0 0) ≡ None }
    ensures alone { map (λ p. first_fault (faulty p p)) points
        ≡ map (λ p. Some (fault_of p)) points }
    ensures limits { map (λ q. first_fault (faulty 1 q)) (later 1)
        ≡ map (λ q. Some (fault_of 1)) (later 1) }
    ensures one_space { map (λ q. first_fault (faulty 2 q)) (later 2)
        ≡ map (λ q. Some (fault_of 2)) (later 2) }
    ensures root { map (λ q. first_fault (faulty 3 q)) (later 3)
        ≡ map (λ q. Some (fault_of 3)) (later 3) }
    ensures unknown { map (λ q. first_fault (faulty 4 q)) (later 4)
        ≡ map (λ q. Some (fault_of 4)) (later 4) }
    ensures within { map (λ q. first_fault (faulty 5 q)) (later 5)
        ≡ map (λ q. Some (fault_of 5)) (later 5) }
    ensures inherits { map (λ q. first_fault (faulty 6 q)) (later 6)
        ≡ map (λ q. Some (fault_of 6)) (later 6) }
    ensures rules { map (λ q. first_fault (faulty 7 q)) (later 7)
        ≡ map (λ q. Some (fault_of 7)) (later 7) }
{}

/// A law: of two faults of one rule, its form before its reads, and a second rule before its reads.
pub fn first_of_two_in_a_rule()
    ensures form { first_fault (with_rules (bad_form_and_read ∷ []) [])
        ≡ Some (fault.BadForm (of_self (codes "C") (codes "a"))) }
    ensures second { first_fault (with_rules (self_is (codes "a") (num 1) ∷ bad_read ∷ []) [])
        ≡ Some (fault.TwiceRuled (of_self (codes "C") (codes "a"))) }
{}

/// A law: a missing rule of a class before a fault of a later class's rule.
pub fn first_of_two_classes()
    ensures earlier { first_fault (with_rules (self_is (codes "a") (num 1) ∷ []) (class_d ∷ []))
        ≡ Some (fault.MissingRule (of_self (codes "C") (codes "b"))) }
{}

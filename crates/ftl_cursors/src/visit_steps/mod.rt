//! Why the visits of `ftl_visit::visits` are those of `ftl_items::stage_items`. A law, stated by an
//! empty function; `specs/visit_steps/VisitLaws.antt` has its words.

mod laws;

pub use laws::visits_run_rules;

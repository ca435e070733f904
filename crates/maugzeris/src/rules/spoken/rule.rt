//! Rules, token by token.

ghost use Rattle.std.specs.Prelude.{◌≡◌, ◌++◌, string_bytes, OnOk};
ghost use Rattle.ftl_grammar.specs.printing.GrammarTokens.{body_tokens, target_tokens};
ghost use Rattle.maugzeris.specs.rules.Spoken.{rule_text, spoken_text};

use crate::rules::spoken::expression::push_expr;
use crate::rules::spoken::token::{fixed, name};
use ftl_grammar::{Body, Rule, Target};
use ftl_tokens::Kind;
use std::alloc::AllocError;

/// Appends a rule.
pub(crate) fn push_rule(out: &mut String, rule: &Rule) -> Result<(), AllocError>
    ensures text { OnOk result (string_bytes out.new ≡ string_bytes out.old ++ rule_text rule.now) }
{
    push_target(out, &rule.target)?;
    fixed(out, Kind::Assign)?;
    push_body(out, &rule.body)
}

fn push_target(out: &mut String, target: &Target) -> Result<(), AllocError>
    ensures text { OnOk result (string_bytes out.new
        ≡ string_bytes out.old ++ spoken_text (target_tokens target.now)) }
{
    match target {
        Target::Own(attr) => {
            fixed(out, Kind::SelfWord)?;
            fixed(out, Kind::Dot)?;
            name(out, attr)
        }
        Target::Of(child, attr) => {
            name(out, child)?;
            fixed(out, Kind::Dot)?;
            name(out, attr)
        }
    }
}

fn push_body(out: &mut String, body: &Body) -> Result<(), AllocError>
    ensures text { OnOk result (string_bytes out.new
        ≡ string_bytes out.old ++ spoken_text (body_tokens body.now)) }
{
    match body {
        Body::Plain(expr) => push_expr(out, expr),
        Body::FirstThen(first, later) => {
            fixed(out, Kind::First)?;
            push_expr(out, first)?;
            fixed(out, Kind::Then)?;
            push_expr(out, later)
        }
        Body::Fold(child, start, step) => {
            fixed(out, Kind::Fold)?;
            name(out, child)?;
            fixed(out, Kind::From)?;
            push_expr(out, start)?;
            fixed(out, Kind::With)?;
            push_expr(out, step)
        }
    }
}

//! Grammars, token by token.

ghost use Rattle.std.specs.Prelude.{◌≡◌, ◌++◌, ◌∷◌, ℕ, List, [], string_bytes, flat_map};
ghost use Rattle.std.specs.Prelude.{OnOk, IfOk};
ghost use Rattle.std.specs.Str.{IsUtf8};
ghost use Rattle.ftl_tokens.specs.scanner.Tokenized as said;
ghost use Rattle.ftl_grammar.specs.printing.ExpressionTokens.{expr_tokens};
ghost use Rattle.ftl_grammar.specs.printing.GrammarTokens.{attr_word, attr_tokens, next_name};
ghost use Rattle.ftl_grammar.specs.printing.GrammarTokens.{shown_tokens, interface_tokens};
ghost use Rattle.ftl_grammar.specs.printing.GrammarTokens.{child_tokens};
ghost use Rattle.ftl_grammar.specs.printing.GrammarTokens.{target_tokens, body_tokens, rule_tokens};
ghost use Rattle.ftl_grammar.specs.printing.GrammarTokens.{class_tokens, spaced_text, grammar_text};
ghost use Rattle.ftl_grammar.specs.printing.TextOf.{IsTextOf};
ghost use Rattle.ftl_grammar.specs.reading.Readable.{CanBeRead};

use crate::printing::expression::print_expr;
use crate::printing::token::{fixed, name};
use crate::syntax::{AttrDecl, AttrKind, Body, Child, Class, Grammar, Interface, Rule, Target};
use ftl_tokens::{Kind, Name};
use std::alloc::{AllocError, Global};

/// The canonical text of a grammar. Where any text spells the grammar, this one does; so it does of
/// a grammar that was read.
pub fn print_grammar(alloc: Global, grammar: &Grammar) -> Result<String, AllocError>
    ensures text { IfOk result (λ printed. string_bytes printed ≡ grammar_text grammar.now) }
    ensures spells { (text : List ℕ) → IsUtf8 text → IsTextOf text grammar.now
        → IfOk result (λ printed. IsTextOf (string_bytes printed) grammar.now) }
    ensures reads { CanBeRead grammar.now
        → IfOk result (λ printed. IsTextOf (string_bytes printed) grammar.now) }
{
    let mut out = String::new(alloc);
    print_whole(&mut out, grammar)?;
    Ok(out)
}

fn print_whole(out: &mut String, grammar: &Grammar) -> Result<(), AllocError>
    ensures text { OnOk result (string_bytes out.new
        ≡ string_bytes out.old ++ grammar_text grammar.now) }
{
    print_root(out, &grammar.root)?;
    print_interfaces(out, grammar.interfaces.as_slice())?;
    print_classes(out, grammar.classes.as_slice())
}

fn print_root(out: &mut String, root: &Name) -> Result<(), AllocError>
    ensures text { OnOk result (string_bytes out.new ≡ string_bytes out.old
        ++ spaced_text (said.fixed Kind.Root ∷ said.name root.now
        ∷ said.fixed Kind.Semicolon ∷ [])) }
{
    fixed(out, Kind::Root)?;
    name(out, root)?;
    fixed(out, Kind::Semicolon)
}

fn print_interfaces(out: &mut String, interfaces: &[Interface]) -> Result<(), AllocError>
    ensures text { OnOk result (string_bytes out.new
        ≡ string_bytes out.old ++ spaced_text (flat_map interface_tokens interfaces.now)) }
{
    for interface in interfaces {
        print_interface(out, interface)?;
    }
    Ok(())
}

fn print_interface(out: &mut String, interface: &Interface) -> Result<(), AllocError>
    ensures text { OnOk result (string_bytes out.new
        ≡ string_bytes out.old ++ spaced_text (interface_tokens interface.now)) }
{
    fixed(out, Kind::Interface)?;
    name(out, &interface.name)?;
    fixed(out, Kind::LeftBrace)?;
    print_attrs(out, interface.attrs.as_slice())?;
    print_shown(out, interface.shown.as_slice())?;
    fixed(out, Kind::RightBrace)
}

fn print_attrs(out: &mut String, attrs: &[AttrDecl]) -> Result<(), AllocError>
    ensures text { OnOk result (string_bytes out.new
        ≡ string_bytes out.old ++ spaced_text (flat_map attr_tokens attrs.now)) }
{
    for attr in attrs {
        print_attr(out, attr)?;
    }
    Ok(())
}

fn print_attr(out: &mut String, attr: &AttrDecl) -> Result<(), AllocError>
    ensures text { OnOk result (string_bytes out.new
        ≡ string_bytes out.old ++ spaced_text (attr_tokens attr.now)) }
{
    fixed(out, attr_word(attr.kind))?;
    name(out, &attr.name)?;
    fixed(out, Kind::Semicolon)
}

fn attr_word(kind: AttrKind) -> Kind
    ensures word { result ≡ attr_word kind }
{
    match kind {
        AttrKind::Inh => Kind::Inh,
        AttrKind::Syn => Kind::Syn,
        AttrKind::Input => Kind::Input,
        AttrKind::Local => Kind::Local,
    }
}

fn print_shown(out: &mut String, shown: &[Name]) -> Result<(), AllocError>
    ensures text { OnOk result (string_bytes out.new
        ≡ string_bytes out.old ++ spaced_text (shown_tokens shown.now)) }
{
    let Some((first, others)) = shown.split_first() else {
        return Ok(());
    };
    fixed(out, Kind::Show)?;
    name(out, first)?;
    print_next_names(out, others)?;
    fixed(out, Kind::Semicolon)
}

fn print_next_names(out: &mut String, names: &[Name]) -> Result<(), AllocError>
    ensures text { OnOk result (string_bytes out.new
        ≡ string_bytes out.old ++ spaced_text (flat_map next_name names.now)) }
{
    for next in names {
        fixed(out, Kind::Comma)?;
        name(out, next)?;
    }
    Ok(())
}

fn print_classes(out: &mut String, classes: &[Class]) -> Result<(), AllocError>
    ensures text { OnOk result (string_bytes out.new
        ≡ string_bytes out.old ++ spaced_text (flat_map class_tokens classes.now)) }
{
    for class in classes {
        print_class(out, class)?;
    }
    Ok(())
}

fn print_class(out: &mut String, class: &Class) -> Result<(), AllocError>
    ensures text { OnOk result (string_bytes out.new
        ≡ string_bytes out.old ++ spaced_text (class_tokens class.now)) }
{
    print_class_head(out, &class.name, &class.interface)?;
    print_attrs(out, class.attrs.as_slice())?;
    print_children(out, class.children.as_slice())?;
    print_rules(out, class.rules.as_slice())?;
    fixed(out, Kind::RightBrace)
}

fn print_class_head(out: &mut String, class: &Name, interface: &Name) -> Result<(), AllocError>
    ensures text { OnOk result (string_bytes out.new ≡ string_bytes out.old
        ++ spaced_text (said.fixed Kind.Class ∷ said.name class.now ∷ said.fixed Kind.Colon
        ∷ said.name interface.now ∷ said.fixed Kind.LeftBrace ∷ [])) }
{
    fixed(out, Kind::Class)?;
    name(out, class)?;
    fixed(out, Kind::Colon)?;
    name(out, interface)?;
    fixed(out, Kind::LeftBrace)
}

fn print_children(out: &mut String, children: &[Child]) -> Result<(), AllocError>
    ensures text { OnOk result (string_bytes out.new
        ≡ string_bytes out.old ++ spaced_text (flat_map child_tokens children.now)) }
{
    for child in children {
        print_child(out, child)?;
    }
    Ok(())
}

fn print_child(out: &mut String, child: &Child) -> Result<(), AllocError>
    ensures text { OnOk result (string_bytes out.new
        ≡ string_bytes out.old ++ spaced_text (child_tokens child.now)) }
{
    name(out, &child.name)?;
    fixed(out, Kind::Colon)?;
    if child.many {
        fixed(out, Kind::LeftBracket)?;
        name(out, &child.interface)?;
        fixed(out, Kind::RightBracket)?;
    } else {
        name(out, &child.interface)?;
    }
    fixed(out, Kind::Semicolon)
}

fn print_rules(out: &mut String, rules: &[Rule]) -> Result<(), AllocError>
    ensures text { OnOk result (string_bytes out.new
        ≡ string_bytes out.old ++ spaced_text (flat_map rule_tokens rules.now)) }
{
    for rule in rules {
        print_rule(out, rule)?;
    }
    Ok(())
}

fn print_rule(out: &mut String, rule: &Rule) -> Result<(), AllocError>
    ensures text { OnOk result (string_bytes out.new
        ≡ string_bytes out.old ++ spaced_text (rule_tokens rule.now)) }
{
    print_target(out, &rule.target)?;
    fixed(out, Kind::Assign)?;
    print_body(out, &rule.body)?;
    fixed(out, Kind::Semicolon)
}

fn print_target(out: &mut String, target: &Target) -> Result<(), AllocError>
    ensures text { OnOk result (string_bytes out.new
        ≡ string_bytes out.old ++ spaced_text (target_tokens target.now)) }
{
    match target {
        Target::Own(attr) => {
            fixed(out, Kind::SelfWord)?;
            fixed(out, Kind::Dot)?;
            name(out, attr)
        }
        Target::Of(child, attr) => {
            name(out, child)?;
            fixed(out, Kind::Dot)?;
            name(out, attr)
        }
    }
}

fn print_body(out: &mut String, body: &Body) -> Result<(), AllocError>
    ensures text { OnOk result (string_bytes out.new
        ≡ string_bytes out.old ++ spaced_text (body_tokens body.now)) }
{
    match body {
        Body::Plain(expr) => print_expr(out, expr),
        Body::FirstThen(first, later) => {
            fixed(out, Kind::First)?;
            print_expr(out, first)?;
            fixed(out, Kind::Then)?;
            print_expr(out, later)
        }
        Body::Fold(child, start, step) => {
            fixed(out, Kind::Fold)?;
            name(out, child)?;
            fixed(out, Kind::From)?;
            print_expr(out, start)?;
            fixed(out, Kind::With)?;
            print_expr(out, step)
        }
    }
}

//! What is read inside rows. Those that are open stand on a stack, and each turn takes what comes
//! next in the innermost one.

ghost use Rattle.std.specs.Prelude.{◌≡◌, ◌≢◌, ◌<◌, ◌≤◌, Some, length, OnOk};
ghost use Rattle.ftl_tokens.specs.declared.scanner.kind.Kind.TheVariants as kind;
ghost use Rattle.ftl_tokens.specs.reading.Reader.{and_then, next_kind, rest_of};
ghost use Rattle.ftl_document.specs.syntax.RowReading as spec;
ghost use Rattle.ftl_document.specs.syntax.RowReading.{Pushes};
ghost use Rattle.ftl_document.specs.syntax.RowsLeft.{LeadsTo, innermost, item_of, resume};

use crate::syntax::input::DocumentInput;
use crate::syntax::name_ref::NameRef;
use crate::syntax::open_rows::{Inside, OpenRow, OpenRows};
use crate::syntax::row::WrittenRow;
use ftl_tokens::{Kind, ReadFault};
use std::alloc::Global;

/// How many braces may be open at once.
pub(crate) const DEEPEST: usize = 512;

/// The rows of the document's node, from its `{` to its `}`.
#[tactic(auto, unfolding(crate::specs::syntax::RowReading::braces))]
pub(crate) fn root<'a>(
    alloc: Global,
    rows: &mut Vec<WrittenRow<'a>>,
    input: &mut DocumentInput<'a>,
) -> Result<(), ReadFault>
    ensures reads { Pushes (spec.braces (spec.fields_to 512) rows.old.items input.old) result
        rows.new.items input.new }
{
    input.expect(Kind::LeftBrace)?;
    let mut stack = OpenRows::new(alloc);
    stack.push(OpenRow::Root { depth: DEEPEST - 1 })?;
    finish(&mut stack, rows, input)
}

// Takes what is left of all open rows. Each turn takes a token.
fn finish<'a>(
    stack: &mut OpenRows<'a>,
    rows: &mut Vec<WrittenRow<'a>>,
    input: &mut DocumentInput<'a>,
) -> Result<(), ReadFault>
    ensures reads { Pushes (resume stack.old rows.old.items input.old) result rows.new.items
        input.new }
{
    while let Some(inside) = stack.innermost() {
        turn(inside, stack, rows, input)?;
    }
    Ok(())
}

// Takes what comes next inside the innermost open row.
fn turn<'a>(
    inside: Inside,
    stack: &mut OpenRows<'a>,
    rows: &mut Vec<WrittenRow<'a>>,
    input: &mut DocumentInput<'a>,
) -> Result<(), ReadFault>
    requires innermost { innermost stack.old ≡ Some inside }
    ensures turn { LeadsTo (resume stack.old rows.old.items input.old) result
        (resume stack.new rows.new.items input.new) input.new }
    ensures takes { OnOk result (length input.new < length input.old) }
{
    match input.peek() {
        Some(Kind::Name) => item(inside, stack, rows, input),
        _ => close(inside, stack, rows, input),
    }
}

// Closes the innermost open row.
fn close<'a>(
    inside: Inside,
    stack: &mut OpenRows<'a>,
    rows: &mut Vec<WrittenRow<'a>>,
    input: &mut DocumentInput<'a>,
) -> Result<(), ReadFault>
    requires innermost { innermost stack.old ≡ Some inside }
    requires ended { next_kind input.old ≢ Some kind.Name }
    ensures turn { LeadsTo (resume stack.old rows.old.items input.old) result
        (resume stack.new rows.new.items input.new) input.new }
    ensures takes { OnOk result (length input.new < length input.old) }
{
    input.expect(inside.mark())?;
    if let Some(open) = stack.pop() {
        open.close(rows);
    }
    Ok(())
}

// Takes a field or a node of a list, as far as the inside of a row.
fn item<'a>(
    inside: Inside,
    stack: &mut OpenRows<'a>,
    rows: &mut Vec<WrittenRow<'a>>,
    input: &mut DocumentInput<'a>,
) -> Result<(), ReadFault>
    ensures turn { LeadsTo (and_then (item_of inside rows.old.items input.old) (resume stack.old))
        result (resume stack.new rows.new.items input.new) input.new }
    ensures takes { OnOk result (length input.new < length input.old) }
{
    match inside {
        Inside::Fields { depth } => field(depth, stack, rows, input),
        Inside::Kids { depth } => kid(depth, stack, rows, input),
    }
}

// A node in a list.
#[tactic(auto, using(crate::proofs::syntax::RowsLeft::kid_opened), unfolding(crate::specs::syntax::RowReading::braces, crate::specs::syntax::RowReading::kid))]
fn kid<'a>(
    depth: usize,
    stack: &mut OpenRows<'a>,
    rows: &mut Vec<WrittenRow<'a>>,
    input: &mut DocumentInput<'a>,
) -> Result<(), ReadFault>
    ensures turn { LeadsTo
        (and_then (spec.kid (spec.fields_to depth) rows.old.items input.old) (resume stack.old))
        result (resume stack.new rows.new.items input.new) input.new }
    ensures takes { OnOk result (length input.new < length input.old) }
{
    let class = input.name_text()?;
    input.expect(Kind::LeftBrace)?;
    if depth == 0 {
        return Err(ReadFault::Refused);
    }
    let at = rows.len();
    rows.push(WrittenRow::Kid {
        class: NameRef::new(class),
        below: 0,
    })?;
    stack.push(OpenRow::Kid {
        class: NameRef::new(class),
        at,
        depth: depth - 1,
    })?;
    Ok(())
}

// A field that is a node, after `=`.
#[tactic(auto, using(crate::proofs::syntax::RowsLeft::single_opened), unfolding(crate::specs::syntax::RowReading::braces, crate::specs::syntax::RowReading::single))]
fn single<'a>(
    depth: usize,
    name: &'a str,
    stack: &mut OpenRows<'a>,
    rows: &mut Vec<WrittenRow<'a>>,
    input: &mut DocumentInput<'a>,
) -> Result<(), ReadFault>
    ensures turn { LeadsTo (and_then
        (spec.single (spec.fields_to depth) name.now rows.old.items input.old) (resume stack.old))
        result (resume stack.new rows.new.items input.new) input.new }
    ensures takes { OnOk result (length input.new < length input.old) }
{
    let class = input.name_text()?;
    input.expect(Kind::LeftBrace)?;
    if depth == 0 {
        return Err(ReadFault::Refused);
    }
    let at = rows.len();
    rows.push(WrittenRow::Single {
        name: NameRef::new(name),
        class: NameRef::new(class),
        below: 0,
    })?;
    stack.push(OpenRow::Single {
        name: NameRef::new(name),
        class: NameRef::new(class),
        at,
        depth: depth - 1,
    })?;
    Ok(())
}

// A field that is a list, from `[` on.
#[tactic(auto, using(crate::proofs::syntax::RowsLeft::list_opened))]
fn list<'a>(
    depth: usize,
    name: &'a str,
    stack: &mut OpenRows<'a>,
    rows: &mut Vec<WrittenRow<'a>>,
    input: &mut DocumentInput<'a>,
) -> Result<(), ReadFault>
    ensures turn { LeadsTo (and_then
        (spec.list (spec.fields_to depth) name.now rows.old.items (rest_of input.old))
        (resume stack.old)) result (resume stack.new rows.new.items input.new) input.new }
    ensures takes { OnOk result (length input.new ≤ length input.old) }
{
    input.skip();
    let at = rows.len();
    rows.push(WrittenRow::List {
        name: NameRef::new(name),
        below: 0,
    })?;
    stack.push(OpenRow::List {
        name: NameRef::new(name),
        at,
        depth,
    })?;
    Ok(())
}

// What stands after a field's `=`.
#[tactic(auto, unfolding(crate::specs::syntax::RowReading::value))]
fn value<'a>(
    depth: usize,
    name: &'a str,
    stack: &mut OpenRows<'a>,
    rows: &mut Vec<WrittenRow<'a>>,
    input: &mut DocumentInput<'a>,
) -> Result<(), ReadFault>
    ensures turn { LeadsTo (and_then
        (spec.value (spec.fields_to depth) name.now rows.old.items input.old) (resume stack.old))
        result (resume stack.new rows.new.items input.new) input.new }
    ensures takes { OnOk result (length input.new ≤ length input.old) }
{
    match input.peek() {
        Some(Kind::Number) => {
            let value = input.number()? as i64;
            rows.push(WrittenRow::Number {
                name: NameRef::new(name),
                value,
            })?;
            Ok(())
        }
        Some(Kind::Minus) => {
            input.skip();
            let value = -(input.number()? as i64);
            rows.push(WrittenRow::Number {
                name: NameRef::new(name),
                value,
            })?;
            Ok(())
        }
        Some(Kind::LeftBracket) => list(depth, name, stack, rows, input),
        _ => single(depth, name, stack, rows, input),
    }
}

// A field, as far as the inside of its row.
#[tactic(auto, unfolding(crate::specs::syntax::RowReading::field))]
fn field<'a>(
    depth: usize,
    stack: &mut OpenRows<'a>,
    rows: &mut Vec<WrittenRow<'a>>,
    input: &mut DocumentInput<'a>,
) -> Result<(), ReadFault>
    ensures turn { LeadsTo
        (and_then (spec.field (spec.fields_to depth) rows.old.items input.old) (resume stack.old))
        result (resume stack.new rows.new.items input.new) input.new }
    ensures takes { OnOk result (length input.new < length input.old) }
{
    let name = input.name_text()?;
    input.expect(Kind::Equals)?;
    value(depth, name, stack, rows, input)
}

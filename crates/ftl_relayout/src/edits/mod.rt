//! Edits of inputs. Goes in: the values of a tree, and numbers for some of its inputs. Comes out:
//! the values with these numbers, and a trail that takes the writes back; `specs/laws/Edits.antt`
//! has the words.

mod write;

pub(crate) use write::write_inputs;

//! Pages built by calls, without a text. Goes in: rules, and classes, numbers, nodes and lists by
//! name. Comes out: the page, or the refusal of a document with these nodes and fields. Contracts
//! see a `Builder` as its rules and the document so far (`ftl_building`):
//! `specs/building/PageParts.antt`. `classes` names the classes of a grammar by number.

mod builder;
mod classes;

pub use builder::Builder;

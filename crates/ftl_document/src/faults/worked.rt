//! Laws that hold faults and trees of documents against documents that were typed out by hand.

ghost use Rattle.std.specs.Prelude.{◌≡◌, [], ◌∷◌, pos, negsuc, Some, None, codes};
ghost use Rattle.ftl_model.specs.layout.Tree.{none, tree};
ghost use Rattle.ftl_document.specs.syntax.Written.{no_fields, no_nodes, node_and, node_field};
ghost use Rattle.ftl_document.specs.syntax.Written.{number_field};
ghost use Rattle.ftl_meaning.specs.faults.FirstFault as grammars;
ghost use Rattle.ftl_meaning.specs.faults.Worked as written;
ghost use Rattle.ftl_document.specs.faults.DocumentTree.{tree_of};
ghost use Rattle.ftl_document.specs.faults.FirstFault.{first_fault, instance_count_of};
ghost use Rattle.ftl_document.specs.faults.FirstFault.{too_many_instances};
ghost use Rattle.ftl_document.specs.faults.Worked as worked;
ghost use Rattle.ftl_document.specs.faults.WrittenOf.{written_of};
ghost use Rattle.ftl_document.specs.declared.faults.fault.DocFault.TheVariants as fault;

/// A law: documents without a fault. Children stand between inputs, and inputs in any order.
pub fn documents_without_a_fault()
    ensures two_words { first_fault written.stack worked.two_words ≡ None }
    ensures lawful { grammars.first_fault worked.screens ≡ None }
    ensures in_order { first_fault worked.screens worked.plain_screen ≡ None }
    ensures mixed { first_fault worked.screens worked.mixed_screen ≡ None }
    ensures instances { instance_count_of written.stack worked.two_words ≡ 17 }
    ensures more_instances { instance_count_of worked.screens worked.mixed_screen ≡ 12 }
    ensures most_instances { too_many_instances 33554432 ≡ None }
    ensures too_many { too_many_instances 33554433 ≡ Some (fault.TooManyInstances 33554433) }
{}

/// A law: the trees of documents. A tree has its inputs in the order of their declaration.
pub fn trees_of_documents()
    ensures two_words { tree_of written.stack worked.two_words ≡ tree 0 0 [] (tree 1 0 [] (tree 2 0
        (pos 20 ∷ pos 10 ∷ []) none (tree 2 0 (pos 30 ∷ pos 15 ∷ []) none none)) none) none }
    ensures in_order { tree_of worked.screens worked.plain_screen ≡ tree 0 0
        (pos 1 ∷ pos 2 ∷ pos 3 ∷ []) (tree 1 0 (pos 4 ∷ negsuc 4 ∷ []) none (tree 1 2
        (pos 6 ∷ pos 7 ∷ []) none none)) none }
    ensures mixed { tree_of worked.screens worked.mixed_screen ≡ tree 0 0
        (pos 1 ∷ pos 2 ∷ pos 3 ∷ []) (tree 1 0 (pos 4 ∷ pos 5 ∷ []) none (tree 1 1
        (pos 6 ∷ pos 7 ∷ []) none (tree 1 1 (pos 8 ∷ pos 9 ∷ []) none (tree 1 2
        (pos 10 ∷ pos 11 ∷ []) none none)))) none }
{}

/// A law: documents in the canonical order, of the trees of others.
pub fn canonical_documents()
    ensures two_words { written_of written.stack (tree_of written.stack worked.two_words)
        ≡ worked.two_words }
    ensures no_kids { written_of worked.screens (tree_of worked.screens worked.plain_screen)
        ≡ worked.plain_screen }
    ensures mixed { written_of worked.screens (tree_of worked.screens worked.mixed_screen)
        ≡ worked.screen (worked.screen_inputs (worked.dot_in (codes "head") 4 5 (worked.kids_in
        (worked.dot_and 6 7 (worked.dot_and 8 9 no_nodes)) (worked.dot_in (codes "foot") 10 11
        no_fields)))) }
{}

/// A law: faults of a node's class and interface.
pub fn faults_of_nodes()
    ensures unknown { first_fault written.stack (worked.sheet_of (codes "Row") no_fields)
        ≡ Some (fault.UnknownClass 1 (codes "Row")) }
    ensures wrong { first_fault written.stack (worked.sheet_of (codes "Sheet") no_fields)
        ≡ Some (fault.WrongInterface 1 0 1) }
    ensures unknown_root { first_fault written.stack (worked.document (codes "Row") no_fields)
        ≡ Some (fault.UnknownClass 0 (codes "Row")) }
    ensures wrong_root { first_fault written.stack (worked.document (codes "Word") no_fields)
        ≡ Some (fault.WrongInterface 0 2 0) }
    ensures in_preorder { first_fault written.stack (worked.column_and_row worked.words)
        ≡ Some (fault.UnknownClass 5 (codes "Row")) }
    ensures of_another_child { first_fault worked.screens (worked.screen
        (worked.screen_inputs (worked.dot_in (codes "head") 4 5 (worked.kids_in (worked.dot_and 6 7
        (node_and (codes "Screen") no_fields no_nodes)) (worked.dot_in (codes "foot") 8 9
        no_fields))))) ≡ Some (fault.WrongInterface 3 0 1) }
{}

/// A law: faults of a field. A number for a child, a node or a list for an input, a node for a list
/// child and a list for a single child have a wrong form.
pub fn faults_of_fields()
    ensures twice { first_fault written.stack (worked.sheet_of (codes "Word")
        (worked.number_in (codes "iw") 1 (worked.number_in (codes "iw") 2 no_fields)))
        ≡ Some (fault.FieldTwice 1 (codes "iw")) }
    ensures child_twice { first_fault written.stack (worked.document (codes "Sheet") (node_field
        (codes "body") (codes "Column") no_fields (node_field (codes "body") (codes "Column")
        no_fields no_fields))) ≡ Some (fault.FieldTwice 0 (codes "body")) }
    ensures unknown { first_fault written.stack (worked.sheet_of (codes "Word")
        (worked.number_in (codes "q") 1 no_fields)) ≡ Some (fault.UnknownField 1 (codes "q")) }
    ensures inherited { first_fault written.stack (worked.sheet_of (codes "Word")
        (worked.number_in (codes "x") 1 no_fields)) ≡ Some (fault.UnknownField 1 (codes "x")) }
    ensures local { first_fault worked.screens (worked.screen (worked.number_in (codes "l") 1
        no_fields)) ≡ Some (fault.UnknownField 0 (codes "l")) }
    ensures number_for_list { first_fault written.stack (worked.sheet_of (codes "Column")
        (worked.number_in (codes "kids") 1 no_fields)) ≡ Some (fault.FieldForm 1 (codes "kids")) }
    ensures number_for_single { first_fault written.stack (worked.document (codes "Sheet")
        (worked.number_in (codes "body") 1 no_fields)) ≡ Some (fault.FieldForm 0 (codes "body")) }
    ensures node_for_list { first_fault written.stack (worked.sheet_of (codes "Column") (node_field
        (codes "kids") (codes "Word") no_fields no_fields))
        ≡ Some (fault.FieldForm 1 (codes "kids")) }
    ensures list_for_single { first_fault worked.screens (worked.screen (worked.list_in
        (codes "head") no_nodes no_fields)) ≡ Some (fault.FieldForm 0 (codes "head")) }
    ensures node_for_input { first_fault worked.screens (worked.screen (worked.dot_in (codes "dpi")
        4 5 no_fields)) ≡ Some (fault.FieldForm 0 (codes "dpi")) }
    ensures list_for_input { first_fault worked.screens (worked.screen (worked.list_in (codes "vw")
        no_nodes no_fields)) ≡ Some (fault.FieldForm 0 (codes "vw")) }
{}

/// A law: the field of a child stands after that of one that is declared later.
pub fn faults_of_order()
    ensures list_first { first_fault worked.screens (worked.screen (worked.kids_in no_nodes
        (worked.dot_in (codes "head") 4 5 no_fields)))
        ≡ Some (fault.FieldOrder 0 (codes "head")) }
    ensures over_an_input { first_fault worked.screens (worked.screen (worked.dot_in (codes "head")
        4 5 (worked.dot_in (codes "foot") 6 7 (worked.number_in (codes "vw") 1 (worked.kids_in
        no_nodes no_fields))))) ≡ Some (fault.FieldOrder 0 (codes "kids")) }
    ensures first_of_two { first_fault worked.screens (worked.screen (worked.dot_in (codes "foot")
        4 5 (worked.dot_in (codes "head") 6 7 (worked.kids_in no_nodes no_fields))))
        ≡ Some (fault.FieldOrder 0 (codes "head")) }
{}

/// A law: the first input or child that has no field: the interface's inputs, then the class's,
/// then the children.
pub fn missing_fields()
    ensures input { first_fault written.stack (worked.sheet_of (codes "Word")
        (worked.number_in (codes "ih") 1 no_fields)) ≡ Some (fault.FieldMissing 1 (codes "iw")) }
    ensures child { first_fault written.stack (worked.document (codes "Sheet") no_fields)
        ≡ Some (fault.FieldMissing 0 (codes "body")) }
    ensures list { first_fault written.stack (worked.sheet_of (codes "Column") no_fields)
        ≡ Some (fault.FieldMissing 1 (codes "kids")) }
    ensures interface_first { first_fault worked.screens (worked.screen no_fields)
        ≡ Some (fault.FieldMissing 0 (codes "vw")) }
    ensures input_before_child { first_fault worked.screens (worked.screen
        (worked.number_in (codes "dpi") 2 (worked.number_in (codes "vw") 1 (worked.dot_in
        (codes "foot") 4 5 no_fields)))) ≡ Some (fault.FieldMissing 0 (codes "zoom")) }
    ensures second_child { first_fault worked.screens (worked.screen (worked.screen_inputs
        (worked.dot_in (codes "head") 4 5 no_fields)))
        ≡ Some (fault.FieldMissing 0 (codes "kids")) }
    ensures last_child { first_fault worked.screens (worked.screen (worked.screen_inputs
        (worked.dot_in (codes "head") 4 5 (worked.kids_in no_nodes no_fields))))
        ≡ Some (fault.FieldMissing 0 (codes "foot")) }
{}

/// A law: which of two faults is first. A node's own faults come before those of the nodes below
/// it, wherever they stand in the text.
pub fn faults_before_others()
    ensures missing_above { first_fault worked.screens (worked.screen (node_field (codes "head")
        (codes "Row") no_fields no_fields)) ≡ Some (fault.FieldMissing 0 (codes "vw")) }
    ensures field_above { first_fault written.stack (worked.document (codes "Sheet") (node_field
        (codes "body") (codes "Row") no_fields (worked.number_in (codes "q") 1 no_fields)))
        ≡ Some (fault.UnknownField 0 (codes "q")) }
    ensures class_first { first_fault written.stack (worked.sheet_of (codes "Row")
        (worked.number_in (codes "q") 1 no_fields)) ≡ Some (fault.UnknownClass 1 (codes "Row")) }
    ensures interface_first { first_fault written.stack (worked.sheet_of (codes "Sheet")
        (worked.number_in (codes "q") 1 no_fields)) ≡ Some (fault.WrongInterface 1 0 1) }
    ensures below_first { first_fault written.stack (worked.column_and_row (node_and (codes "Word")
        (worked.number_in (codes "iw") 1 no_fields) no_nodes))
        ≡ Some (fault.FieldMissing 3 (codes "ih")) }
    ensures field_before_missing { first_fault written.stack (worked.sheet_of (codes "Word")
        (worked.number_in (codes "ih") 1 (worked.number_in (codes "ih") 2 no_fields)))
        ≡ Some (fault.FieldTwice 1 (codes "ih")) }
    ensures twice_before_form { first_fault written.stack (worked.sheet_of (codes "Word")
        (worked.number_in (codes "iw") 1 (worked.list_in (codes "iw") no_nodes no_fields)))
        ≡ Some (fault.FieldTwice 1 (codes "iw")) }
    ensures twice_before_order { first_fault worked.screens (worked.screen (worked.dot_in
        (codes "head") 4 5 (worked.kids_in no_nodes (worked.dot_in (codes "head") 6 7 no_fields))))
        ≡ Some (fault.FieldTwice 0 (codes "head")) }
    ensures form_before_order { first_fault worked.screens (worked.screen (worked.kids_in no_nodes
        (worked.number_in (codes "head") 1 no_fields))) ≡ Some (fault.FieldForm 0 (codes "head")) }
    ensures in_text_order { first_fault worked.screens (worked.screen (worked.kids_in no_nodes
        (worked.dot_in (codes "head") 4 5 (worked.number_in (codes "q") 1 no_fields))))
        ≡ Some (fault.FieldOrder 0 (codes "head")) }
{}

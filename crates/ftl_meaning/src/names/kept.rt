//! Laws on what a grammar declares and on the grammar with its names gone.

ghost use Rattle.ftl_meaning.specs.names.Places.{OfMeanings, OfRightMeanings};
ghost use Rattle.ftl_meaning.specs.names.Attributes.{AttributesAreCounted, SharedAreKept};
ghost use Rattle.ftl_meaning.specs.names.Attributes.{PrivateAreKept, NumbersFollowTheText};
ghost use Rattle.ftl_meaning.specs.names.Attributes.{NumbersAreDistinct, NumbersAreDeclared};
ghost use Rattle.ftl_meaning.specs.names.Classes.{ChildrenAreCounted, ChildInterfacesAreKept};
ghost use Rattle.ftl_meaning.specs.names.Classes.{ChildListsAreKept, InterfacesAreCounted};
ghost use Rattle.ftl_meaning.specs.names.Classes.{ClassesAreCounted, ClassInterfacesAreKept};
ghost use Rattle.ftl_meaning.specs.names.Classes.{RootIsKept, ClassNamesAreKept};
ghost use Rattle.ftl_meaning.specs.names.Shown.{ShowsItsNames, ShowsItsOwn};
ghost use Rattle.ftl_meaning.specs.names.Shown.{ShowsInOrder, ShowsEachName};

/// A law: each declaration of an interface or class has one number, in the order of the text, with
/// its sort and its name, and there are no others.
pub fn attributes_are_kept()
    ensures count { OfMeanings AttributesAreCounted }
    ensures shared { OfMeanings SharedAreKept }
    ensures private { OfMeanings PrivateAreKept }
    ensures order { OfMeanings NumbersFollowTheText }
    ensures distinct { OfMeanings NumbersAreDistinct }
    ensures declared { OfMeanings NumbersAreDeclared }
{}

/// A law: each class has its children as they are declared, in the order of the text.
pub fn children_are_kept()
    ensures count { OfMeanings ChildrenAreCounted }
    ensures interface { OfRightMeanings ChildInterfacesAreKept }
    ensures list { OfMeanings ChildListsAreKept }
{}

/// A law: interfaces and classes are those that are declared, in the order of the text, and the
/// names of interfaces are for the one interface that has the name.
pub fn classes_are_kept()
    ensures interfaces { OfMeanings InterfacesAreCounted }
    ensures classes { OfMeanings ClassesAreCounted }
    ensures interface { OfRightMeanings ClassInterfacesAreKept }
    ensures root { OfRightMeanings RootIsKept }
    ensures name { OfMeanings ClassNamesAreKept }
{}

/// A law: the attributes of a class that are printed are just those whose names its interface
/// shows, in the order of their declaration.
pub fn shown_names_are_kept()
    ensures shown { OfMeanings ShowsItsNames }
    ensures own { OfMeanings ShowsItsOwn }
    ensures order { OfMeanings ShowsInOrder }
    ensures names { OfRightMeanings ShowsEachName }
{}

//! Laws of the definitions. Each text spells one declaration or has one first fault, and never
//! both; and what callables expand to on cells does not depend on what the cells are.
ghost use Rattle.std.specs.Prelude.{◌⊎◌, ℕ, List};
ghost use Rattle.pw_procs.specs.Procedure.{Procedure};
ghost use Rattle.pw_decl.specs.Faults.{SpellsOne, HasAFirstFault};
ghost use Rattle.pw_decl.specs.Laws.{OneDeclarationSentence, OneDeclaration, OneFirstFault};
ghost use Rattle.pw_decl.specs.Laws.{FaultOrDeclaration, EveryLine, WellDeclaredLine};
ghost use Rattle.pw_decl.specs.Laws.{WellDeclaredText, WellDeclaredPrelude};
ghost use Rattle.pw_decl.specs.Laws.{ExpansionUnderOtherNames, ExpansionOnPlaces};
ghost use Rattle.pw_decl.specs.Laws.{ExpansionStaysOnItsCells, ExpansionFits, ExpansionHasItsSize};

/// At each place in a text, words form at most one sentence: the one that the function gives.
pub fn one_declaration_sentence()
    ensures { OneDeclarationSentence }
{}

/// A text spells at most one declaration.
pub fn one_declaration()
    ensures { OneDeclaration }
{}

/// A text has at most one first fault.
pub fn one_first_fault()
    ensures { OneFirstFault }
{}

/// A text that has a fault spells no declaration.
pub fn fault_or_declaration()
    ensures { FaultOrDeclaration }
{}

/// Each line, after what was declared so far, has a fault or is accepted and leads on.
pub fn every_line()
    ensures { EveryLine }
{}

/// Each text spells a declaration or has a first fault.
pub fn every_text()
    ensures { (ps : List Procedure) (text : List ℕ) → SpellsOne ps text ⊎ HasAFirstFault ps text }
{}

/// The properties of every declaration are kept from line to line, and hold of what a text spells.
/// The compounds of what a text spells begin with those of the prelude.
pub fn well_declared()
    ensures line { WellDeclaredLine }
    ensures text { WellDeclaredText }
    ensures prelude { WellDeclaredPrelude }
{}

/// Renaming cells changes only the names: expanding on renamed cells gives the renamed instances.
/// Only the names of inner cells that exist matter.
pub fn expansion_under_other_names<C, D>()
    ensures { ExpansionUnderOtherNames C D }
{}

/// The expansion of a callable on cells is its expansion on places, with the cells put in.
pub fn expansion_on_places<C>()
    ensures { ExpansionOnPlaces C }
{}

/// Instances read and write only the cells on which a callable is expanded, and the callable's
/// inner cells.
pub fn expansion_stays_on_its_cells<C>()
    ensures { ExpansionStaysOnItsCells C }
{}

/// If a callable takes the kinds of the cells, the procedure of each instance accepts the kinds of
/// its cells, and the numbers of instances and of inner cells are those of the callable's size.
pub fn expansion_fits<C>()
    ensures fits { ExpansionFits C }
    ensures size { ExpansionHasItsSize C }
{}

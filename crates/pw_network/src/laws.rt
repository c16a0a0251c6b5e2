//! Laws of networks. Each is the contract of a function that does nothing, and holds of every
//! network.
//!
//! Cells and instances have numbers, which depend on the order of the attachments. What they are
//! called does not: a declared cell has its name, and an inner cell is named by the line of its
//! attachment and its number among the inner cells of that line.
ghost use Rattle.pw_network.specs.Wiring.{InstancesByName, NamesStay};

/// With names from declaration and line instead of numbers, the instances of an attachment are the
/// expansion of the callable on the names of its cells. The cells that existed before keep their
/// names.
///
/// For example, an attachment of a compound at line 7 makes inner cells of line 7. What other lines
/// attached before it changes the numbers of these cells, since they are numbered from the first
/// free number on. It does not change which procedures stand between which names.
///
/// So two networks with the same attachment at the same line have the same instances of it by name,
/// even if one of them has further attachments before it.
///
/// The clause `named` is about the new instances, the clause `kept` about the cells that were there
/// already.
pub fn instances_by_name()
    ensures named { InstancesByName }
    ensures kept { NamesStay }
{}

//! Tests of networks. They show what is attached as lines of names, and compare these with known
//! lines.

mod attaching;
mod large;

ghost use Rattle.std.specs.Prelude.{◌≡◌, ◌<◌, ◌≤◌, All, length, IfOk, IfSome, IsSome};
ghost use Rattle.pw_procs.specs.Registry.{cells_of};
ghost use Rattle.pw_decl.specs.Declaration.{IsCallable};
ghost use Rattle.pw_decl.specs.inside.Fields.{declared};
ghost use Rattle.pw_network.specs.Wiring.{wiring};
ghost use Rattle.pw_network.specs.Network.{cells_in, last_attachment_line};
ghost use Rattle.pw_network.specs.Network.{AreDeclared};
ghost use Rattle.pw_settle.specs.Values.{kinds_in};

use pw_decl::{Callable, Declaration};
use pw_info::Kind;
use pw_network::{Instance, Network, NetworkFault};
use pw_premises::PremiseSet;
use pw_procs::Arguments;
use pw_testing::worlds::{OverDeclaration, over_text};
use std::alloc::{AllocError, Global};
use std::test::Fail;

// The names of the procedures of tests, by their numbers.
const PROCEDURES: [&str; 9] = [
    "light",
    "adder",
    "subtractor",
    "multiplier",
    "divider",
    "inverter",
    "switch",
    "copy",
    "at_most",
];

/// What a test attaches: a callable to declared cells, by their names, at a line and under
/// premises.
#[derive(Clone, Copy)]
pub struct Attachment<'a> {
    pub line: u32,
    pub callable: &'a str,
    pub cells: &'a [&'a str],
    pub support: PremiseSet,
}

/// An attachment under no premise.
pub fn at_line<'a>(line: u32, callable: &'a str, cells: &'a [&'a str]) -> Attachment<'a> {
    Attachment {
        line,
        callable,
        cells,
        support: PremiseSet::empty(),
    }
}

/// The cells of these one to four names, if all are declared.
pub fn cells_named(declaration: &Declaration<'_>, names: &[&str]) -> Option<Arguments>
    ensures { IfSome result (λ cells. All (λ cell. cell < length (declared declaration.now).cells)
        (cells_of cells)) }
{
    let cell = names.len();
    match cell {
        1 => Arguments::of(&[declaration.cell(names[0].as_bytes())?]),
        2 => Arguments::of(&[
            declaration.cell(names[0].as_bytes())?,
            declaration.cell(names[1].as_bytes())?,
        ]),
        3 => Arguments::of(&[
            declaration.cell(names[0].as_bytes())?,
            declaration.cell(names[1].as_bytes())?,
            declaration.cell(names[2].as_bytes())?,
        ]),
        4 => Arguments::of(&[
            declaration.cell(names[0].as_bytes())?,
            declaration.cell(names[1].as_bytes())?,
            declaration.cell(names[2].as_bytes())?,
            declaration.cell(names[3].as_bytes())?,
        ]),
        _ => None,
    }
}

/// The declared cell of this name.
pub fn cell_of(network: &Network<'_, '_>, name: &str) -> Result<u32, Fail>
    ensures { IfOk result (λ cell. cell < cells_in (wiring network.now)) }
{
    let cell = network
        .declaration()
        .cell(name.as_bytes())
        .ok_or("no cell")?;
    if cell >= network.cells() {
        return Err("no such cell".into());
    }
    Ok(cell)
}

/// The callable and the cells of an attachment, by their names. None if a name is not declared, or
/// if its line does not come after the last one or is past the most lines.
pub fn named_in(
    network: &Network<'_, '_>,
    attachment: &Attachment<'_>,
) -> Option<(Callable, Arguments)>
    ensures there { IfSome result (λ named. IsCallable (wiring network.now).declared named.0) }
    ensures cells { IfSome result (λ named. AreDeclared (wiring network.now) (cells_of named.1)) }
    ensures next { IsSome result → (wiring network.now).last_line < attachment.now.line }
    ensures most { IsSome result → attachment.now.line ≤ last_attachment_line }
{
    let declared = network.declaration();
    let callable = declared.callable(attachment.callable.as_bytes())?;
    let cells = cells_named(declared, attachment.cells)?;
    if attachment.line <= network.last_line() || attachment.line > 1_000_000 {
        return None;
    }
    Some((callable, cells))
}

// Attaches a callable to declared cells, by their names. Answers the line and the refusal, if it is
// refused.
fn attach_one(
    network: &mut Network<'_, '_>,
    attachment: &Attachment<'_>,
) -> Result<Option<(u32, NetworkFault)>, Fail> {
    let (callable, cells) = named_in(network, attachment).ok_or("wrong names")?;
    let line = attachment.line;
    match network.attach(line, callable, cells, attachment.support) {
        Ok(()) => Ok(None),
        Err(fault) => Ok(Some((line, fault))),
    }
}

// Attaches callables, one after another. Answers the last refusal, and its line.
fn attach_each(
    network: &mut Network<'_, '_>,
    attachments: &[Attachment<'_>],
) -> Result<Option<(u32, NetworkFault)>, Fail> {
    let mut last = None;
    for attachment in attachments {
        last = attach_one(network, attachment)?.or(last);
    }
    Ok(last)
}

/// Attaches callables to declared cells, by their names, one after another.
pub fn attach_named(
    network: &mut Network<'_, '_>,
    attachments: &[Attachment<'_>],
) -> Result<(), Fail> {
    match attach_each(network, attachments)? {
        None => Ok(()),
        Some(_) => Err("not attached".into()),
    }
}

// Adds the cell to the text: a declared one by its name, an inner one by its line and its number
// there.
fn show_cell(text: &mut String, network: &Network<'_, '_>, cell: u32) -> Result<(), AllocError> {
    let declaration = network.declaration();
    if cell < declaration.cells() {
        return text.push_str(declaration.cell_name(cell));
    }
    if cell >= network.cells() {
        return text.push_str("no cell");
    }
    match network.inner(cell) {
        Some((line, number)) => write!(text, "{line}.{number}"),
        None => text.push_str("no inner cell"),
    }
}

// Adds what an instance reads and writes.
fn show_cells(
    text: &mut String,
    network: &Network<'_, '_>,
    instance: &Instance,
) -> Result<(), AllocError> {
    for cell in instance.inputs() {
        text.push(' ')?;
        show_cell(text, network, *cell)?;
    }
    text.push_str(" -> ")?;
    show_cell(text, network, instance.output)
}

// Adds a line: the instance's line, its procedure, what it reads and writes, and the numbers of its
// premises.
fn show_instance(
    text: &mut String,
    network: &Network<'_, '_>,
    instance: &Instance,
) -> Result<(), AllocError> {
    let name = PROCEDURES
        .get(usize::from(instance.procedure))
        .unwrap_or(&"no procedure");
    write!(text, "{}: {name}", instance.line())?;
    show_cells(text, network, instance)?;
    for premise in instance.support().widen().numbers() {
        write!(text, " under {premise}")?;
    }
    text.push('\n')
}

// Adds a line: the cell and the numbers of the instances that read it.
fn show_readers(text: &mut String, network: &Network<'_, '_>, cell: u32) -> Result<(), AllocError> {
    show_cell(text, network, cell)?;
    text.push(':')?;
    for number in network.readers(cell) {
        write!(text, " {number}")?;
    }
    text.push('\n')
}

// Adds a line: the cell, if it is declared, and the numbers of the instances that write it.
fn show_writers(text: &mut String, network: &Network<'_, '_>, cell: u32) -> Result<(), AllocError> {
    if cell >= network.declaration().cells() {
        return Ok(());
    }
    show_cell(text, network, cell)?;
    text.push(':')?;
    for number in network.writers(cell) {
        write!(text, " {number}")?;
    }
    text.push('\n')
}

// The instances of a network, a line each.
fn instances_of(alloc: Global, network: &Network<'_, '_>) -> Result<String, AllocError> {
    let mut text = String::new(alloc);
    for instance in network.instances() {
        show_instance(&mut text, network, instance)?;
    }
    Ok(text)
}

// The readers of all cells of a network, a line each.
fn readers_of(alloc: Global, network: &Network<'_, '_>) -> Result<String, AllocError> {
    let mut text = String::new(alloc);
    for cell in 0..network.cells() {
        show_readers(&mut text, network, cell)?;
    }
    Ok(text)
}

// The writers of the declared cells of a network, a line each.
fn writers_of(alloc: Global, network: &Network<'_, '_>) -> Result<String, AllocError> {
    let mut text = String::new(alloc);
    for cell in 0..network.cells() {
        show_writers(&mut text, network, cell)?;
    }
    Ok(text)
}

/// The kinds of all cells of a network.
pub fn kinds_of(alloc: Global, network: &Network<'_, '_>) -> Result<Vec<Kind>, AllocError>
    ensures { IfOk result (λ kinds. kinds.items ≡ kinds_in (wiring network.now)) }
{
    let mut kinds = Vec::new(alloc);
    for cell in 0..network.cells() {
        kinds.push(network.kind(cell))?;
    }
    Ok(kinds)
}

/// What a test sees of a network.
#[derive(Drop)]
pub struct Shown {
    pub instances: String,
    pub readers: String,
    pub writers: String,
    pub kinds: Vec<Kind>,
    pub last_line: u32,
    // The last refusal, and its line.
    pub fault: Option<(u32, NetworkFault)>,
}

// Attaches callables to a network over a declaration, and shows it.
#[derive(Drop)]
struct AttachingAll<'a> {
    alloc: Global,
    attachments: &'a [Attachment<'a>],
}

// Shows a network, and the last refusal.
fn show(
    alloc: Global,
    network: &Network<'_, '_>,
    fault: Option<(u32, NetworkFault)>,
) -> Result<Shown, AllocError> {
    Ok(Shown {
        instances: instances_of(alloc, network)?,
        readers: readers_of(alloc, network)?,
        writers: writers_of(alloc, network)?,
        kinds: kinds_of(alloc, network)?,
        last_line: network.last_line(),
        fault,
    })
}

// Attaches callables to a new network, one after another, and shows it.
fn attach_all(
    alloc: Global,
    declaration: &Declaration<'_>,
    attachments: &[Attachment<'_>],
) -> Result<Shown, Fail> {
    let mut network = Network::new(alloc, declaration)?;
    let fault = attach_each(&mut network, attachments)?;
    Ok(show(alloc, &network, fault)?)
}

impl OverDeclaration<Global> for AttachingAll<'_> {
    type Answer = Result<Shown, Fail>;

    fn over(self, declaration: &Declaration<'_>) -> Result<Shown, Fail> {
        attach_all(self.alloc, declaration, self.attachments)
    }
}

/// What a network over the declaration of this text shows once these are attached.
pub fn attached(alloc: Global, text: &str, attachments: &[Attachment<'_>]) -> Result<Shown, Fail> {
    let task = AttachingAll { alloc, attachments };
    over_text(alloc, alloc, text, task)?
}

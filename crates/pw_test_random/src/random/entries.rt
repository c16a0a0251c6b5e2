//! What accepted lines leave behind, as the definitions have it: what is told, what attachments
//! expand to, and what users believe.

use super::declared::{CELLS, Callable, PREMISE_COUNT, Sort, Step};
use super::drawing::{Action, Command};
use pw_info::Info;
use pw_premises::PremiseSet;
use pw_procs::Registry;
use std::alloc::{AllocError, Global};
use std::test::Fail;

// The deepest that compounds call one another.
const DEEPEST: u8 = 8;

/// A declared cell, or an inner cell of an attachment: the attachment's line and premises.
#[derive(Clone, Copy)]
pub struct Cell {
    pub sort: Sort,
    pub attached: Option<(u32, PremiseSet)>,
}

/// A fact that was told.
#[derive(Clone, Copy)]
pub struct Told {
    pub cell: usize,
    pub info: Info,
    pub support: PremiseSet,
}

/// A procedure of an expansion, with the places of its cells, of which the last is its output.
#[derive(Drop)]
pub struct Instance {
    pub procedure: u8,
    pub cells: Vec<usize>,
    pub support: PremiseSet,
}

impl Instance {
    // Whether this is the place of its output.
    fn writes(&self, cell: usize) -> bool {
        match self.cells.last() {
            Some(output) => *output == cell,
            None => false,
        }
    }
}

/// What the lines so far left.
#[derive(Drop)]
pub struct Entries {
    pub alloc: Global,
    pub cells: Vec<Cell>,
    pub told: Vec<Told>,
    pub instances: Vec<Instance>,
    beliefs: [PremiseSet; 3],
}

// The cells at these places of a list.
fn picked(alloc: Global, cells: &[usize], places: &[usize]) -> Result<Vec<usize>, Fail> {
    let mut list = Vec::new(alloc);
    for place in places {
        list.push(*cells.get(*place).ok_or("no such place")?)?;
    }
    Ok(list)
}

// The declared cells.
fn declared_cells(alloc: Global) -> Result<Vec<Cell>, AllocError> {
    let mut cells = Vec::new(alloc);
    for (_, sort) in &CELLS {
        cells.push(Cell {
            sort: *sort,
            attached: None,
        })?;
    }
    Ok(cells)
}

impl Entries {
    /// Nothing told or attached, and each user believes every premise.
    pub fn new(alloc: Global) -> Result<Entries, AllocError> {
        let cells = declared_cells(alloc)?;
        let all = PremiseSet::first(PREMISE_COUNT);
        Ok(Entries {
            alloc,
            cells,
            told: Vec::new(alloc),
            instances: Vec::new(alloc),
            beliefs: [all; 3],
        })
    }

    /// What the user believes.
    pub fn beliefs(&self, user: usize) -> PremiseSet {
        match self.beliefs.get(user) {
            Some(beliefs) => *beliefs,
            None => PremiseSet::empty(),
        }
    }

    /// From now on the user believes these premises.
    pub fn set_beliefs(&mut self, user: usize, premises: PremiseSet) {
        if let Some(beliefs) = self.beliefs.get_mut(user) {
            *beliefs = premises;
        }
    }

    // Adds an inner cell of the attachment at this line, and answers its place.
    fn add_inner(
        &mut self,
        line: u32,
        support: PremiseSet,
        sort: Sort,
    ) -> Result<usize, AllocError> {
        let place = self.cells.len();
        self.cells.push(Cell {
            sort,
            attached: Some((line, support)),
        })?;
        Ok(place)
    }

    // Adds an instance of a procedure.
    fn add_instance(
        &mut self,
        registry: &Registry,
        name: &str,
        cells: &[usize],
        support: PremiseSet,
    ) -> Result<(), Fail> {
        let procedure = registry.find(name.as_bytes()).ok_or("no procedure")?;
        let cells = Vec::from_slice(self.alloc, cells)?;
        self.instances.push(Instance {
            procedure,
            cells,
            support,
        })?;
        Ok(())
    }

    // Adds what a callable over these cells expands to, depth first. A procedure expands to itself.
    // A compound expands to what its steps expand to, one after another, over its parameters and a
    // new inner cell for each local.
    fn expand(
        &mut self,
        registry: &Registry,
        depth: u8,
        line: u32,
        support: PremiseSet,
        callable: Callable,
        cells: Vec<usize>,
    ) -> Result<(), Fail> {
        let Some(steps) = callable.steps() else {
            return self.add_instance(registry, callable.name(), &cells, support);
        };
        if depth == 0 {
            return Err("too deep".into());
        }
        let mut own = cells;
        for step in steps {
            match step {
                Step::Local(sort) => own.push(self.add_inner(line, support, *sort)?)?,
                Step::Call(called, places) => {
                    let cells = picked(self.alloc, &own, places)?;
                    self.expand(registry, depth - 1, line, support, *called, cells)?;
                }
            }
        }
        Ok(())
    }

    /// Takes in a command that was accepted at this line, but for what a choice comes to.
    pub fn accept(
        &mut self,
        registry: &Registry,
        line: u32,
        command: &Command,
    ) -> Result<(), Fail> {
        let user = command.user;
        match command.action {
            Action::Tell(cell, known, support) => {
                let info = known.info();
                self.told.push(Told {
                    cell,
                    info,
                    support,
                })?;
            }
            Action::Attach(callable, ends, support) => {
                let cells = Vec::from_slice(self.alloc, ends.places())?;
                self.expand(registry, DEEPEST, line, support, callable, cells)?;
            }
            Action::Believe(premises) => {
                self.set_beliefs(user, self.beliefs(user).join(premises));
            }
            Action::Doubt(premises) => {
                self.set_beliefs(user, self.beliefs(user).difference(premises));
            }
            _ => {}
        }
        Ok(())
    }

    /// Whether an instance that is visible in the worldview writes the cell.
    pub fn is_written(&self, cell: usize, worldview: &PremiseSet) -> bool {
        for instance in &self.instances {
            if instance.writes(cell) && instance.support.is_subset(worldview) {
                return true;
            }
        }
        false
    }
}

//! Levels of structures: those that reach one another have one, above those of all others that they reach.
//!
//! No contract says so, since who uses the levels checks what is needed of them.

use crate::depth_search::{State, Task, push_entries};
use std::alloc::{AllocError, Global};

/// A search by depth that gathers structures which reach one another into groups.
#[derive(Drop)]
struct Groups {
    states: Vec<State>,
    /// By structure its place among the open ones, and once its group is complete the number of this group.
    levels: Vec<usize>,
    /// The structures whose groups are not complete.
    open: Vec<usize>,
    /// The places at which these groups begin.
    borders: Vec<usize>,
    /// The groups that are complete.
    complete: usize,
}

impl Groups {
    fn new(alloc: Global, count: usize) -> Result<Groups, AllocError> {
        Ok(Groups {
            states: vec![in alloc; State::New; count]?,
            levels: vec![in alloc; 0usize; count]?,
            open: Vec::new(alloc),
            borders: Vec::new(alloc),
            complete: 0,
        })
    }

    fn level(&self, structure: usize) -> usize {
        match self.levels.get(structure) {
            Some(level) => *level,
            None => 0,
        }
    }

    fn set(&mut self, structure: usize, state: State, level: usize) {
        if let Some(old) = self.states.get_mut(structure) {
            *old = state;
        }
        if let Some(old) = self.levels.get_mut(structure) {
            *old = level;
        }
    }

    /// Comes to a structure, and tells whether it is new.
    fn enter(&mut self, structure: usize) -> Result<bool, AllocError> {
        match self.states.get(structure) {
            Some(State::New) => {
                let place = self.open.len();
                self.set(structure, State::Open, place);
                self.open.push(structure)?;
                self.borders.push(place)?;
                Ok(true)
            }
            Some(State::Open) => {
                self.join(self.level(structure));
                Ok(false)
            }
            Some(State::Done) | None => Ok(false),
        }
    }

    /// Makes one group of those from this place on.
    fn join(&mut self, place: usize) {
        for _ in 0..self.borders.len() {
            match self.borders.last() {
                Some(border) if *border > place => {
                    self.borders.pop();
                }
                _ => break,
            }
        }
    }

    /// Goes back from a structure, and completes the group that begins with it.
    fn leave(&mut self, structure: usize) {
        let place = self.level(structure);
        if self.borders.last() != Some(&place) {
            return;
        }
        self.borders.pop();
        for _ in place..self.open.len() {
            if let Some(member) = self.open.pop() {
                self.set(member, State::Done, self.complete);
            }
        }
        self.complete = self.complete.saturating_add(1);
    }
}

/// Does what a task says.
fn take(
    groups: &mut Groups,
    tasks: &mut Vec<Task>,
    graph: &[Vec<usize>],
    task: Task,
) -> Result<(), AllocError> {
    match task {
        Task::Leave(structure) => groups.leave(structure),
        Task::Enter(structure) => {
            if groups.enter(structure)? {
                tasks.push(Task::Leave(structure))?;
                push_row(tasks, graph, structure)?;
            }
        }
    }
    Ok(())
}

fn push_row(
    tasks: &mut Vec<Task>,
    graph: &[Vec<usize>],
    structure: usize,
) -> Result<(), AllocError> {
    match graph.get(structure) {
        Some(row) => push_entries(tasks, row),
        None => Ok(()),
    }
}

/// Gathers what `start` reaches.
fn gather(
    alloc: Global,
    groups: &mut Groups,
    graph: &[Vec<usize>],
    start: usize,
) -> Result<(), AllocError> {
    let mut tasks = Vec::new(alloc);
    tasks.push(Task::Enter(start))?;
    for _ in 0..u64::MAX {
        let Some(task) = tasks.pop() else {
            break;
        };
        take(groups, &mut tasks, graph, task)?;
    }
    Ok(())
}

/// The levels of the structures that `start` reaches.
pub(crate) fn levels_of(
    alloc: Global,
    graph: &[Vec<usize>],
    start: usize,
) -> Result<Vec<usize>, AllocError> {
    let mut groups = Groups::new(alloc, graph.len())?;
    gather(alloc, &mut groups, graph, start)?;
    Ok(groups.levels)
}

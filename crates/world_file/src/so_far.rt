//! What the lines so far have said.

ghost use Rattle.std.specs.Prelude.{◌≡◌, ℕ, ◌+◌, ◌<◌, ◌≤◌, nat_lt, ◌++◌, List, [], ◌∷◌, length, slice_get, IfOk, Option, Some, None, option_map, option_to_list, bytes_eq, find};
ghost use Rattle.std.specs.List.{list_any, position_or_len};
ghost use Rattle.ow_base.specs.World.{page_count, started_page_count, pages_of_found, start_pages};
ghost use Rattle.ow_base.specs.declared.worlds.Program.{Program};
ghost use Rattle.world_file.specs.declared.key.Key.TheVariants.{Program as ProgramKey, Code as CodeKey, Data as DataKey, Start as StartKey, Panic as PanicKey};
ghost use Rattle.world_file.specs.WorldLines.{key, token_at, number_at, words_of};
ghost use Rattle.world_file.specs.WorldFacts.{Facts, programs_of, no_shape, with_limit, with_code, with_values, opened_by, finished_by, starts_by, panics_by, bare_panic, start_of, has_name};
ghost use Rattle.world_file.specs.WorldReasons.{code_count, data_count, named_pages, last_trap};
ghost use Rattle.world_file.specs.WorldReading.{nothing_said, with_line, world_of};

use crate::key::Key;
use crate::line::Line;
use ow_base::{List, Load, PanicLine, Program, Shape, Start, World};
use std::alloc::{AllocError, Global};
use std::marker::Model;

// A program block that is not finished: its name, the words of its code and those of its data.
#[derive(Drop)]
struct Block {
    name: Vec<u8>,
    code: Vec<u32>,
    values: Vec<u32>,
}

impl Model for Block {
    ghost use Rattle.ow_base.specs.declared.worlds.Program.{Program};

    ghost Value = { Program };

    ghost view = { λ b. record { name = b.name.items; code = b.code.items; values = b.values.items } };
}

impl Block {
    // The block that a program line begins.
    fn new(alloc: Global, name: &[u8]) -> Result<Block, AllocError>
        ensures { IfOk result (λ block. block ≡ record { name = name.now; code = []; values = [] }) }
    {
        Ok(Block {
            name: Vec::from_slice(alloc, name)?,
            code: Vec::new(alloc),
            values: Vec::new(alloc),
        })
    }

    fn with_code(self, line: &Line) -> Result<Block, AllocError>
        ensures { IfOk result (λ block. block ≡ with_code (words_of line.now) self) }
    {
        let Block { name, code, values } = self;
        let code = line.append_to(code)?;
        Ok(Block { name, code, values })
    }

    fn with_values(self, line: &Line) -> Result<Block, AllocError>
        ensures { IfOk result (λ block. block ≡ with_values (words_of line.now) self) }
    {
        let Block { name, code, values } = self;
        let values = line.append_to(values)?;
        Ok(Block { name, code, values })
    }

    fn finish(self) -> Program
        ensures { result ≡ self }
    {
        let Block { name, code, values } = self;
        Program {
            name: List::new(name),
            code: List::new(code),
            values: List::new(values),
        }
    }

    fn has_name(&self, name: &[u8]) -> bool
        ensures { result ≡ has_name name.now self.now }
    {
        self.name.as_slice() == name
    }

    fn page_count(&self) -> usize
        ensures { result ≡ started_page_count self.now }
    {
        started_page_count(&self.code, &self.values)
    }
}

// The pages of a process that starts: code, data and four of stack.
fn started_page_count(code: &[u32], values: &[u32]) -> usize
    ensures { result ≡ page_count code.now + page_count values.now + 4 }
{
    code.len().div_ceil(1024) + values.len().div_ceil(1024) + 4
}

fn has_name(program: &Program, name: &[u8]) -> bool
    ensures { result ≡ has_name name.now program.now }
{
    program.name.items() == name
}

fn is_named(programs: &[Program], name: &[u8]) -> bool
    ensures { result ≡ list_any (has_name name.now) programs.now }
{
    programs.iter().any(|program| has_name(program, name))
}

// The pages of the first program with this name, in a start.
fn pages_named(programs: &[Program], name: &[u8]) -> Option<usize>
    ensures { result ≡ option_map started_page_count (find (has_name name.now) programs.now) }
{
    for program in programs {
        if has_name(program, name) {
            return Some(started_page_count(program.code.items(), program.values.items()));
        }
    }
    None
}

// The finished blocks, with the one that now is.
fn finished_with(finished: Vec<Program>, opened: Option<Block>) -> Result<Vec<Program>, AllocError>
    ensures { IfOk result (λ all. all.items ≡ finished.items ++ option_to_list opened) }
{
    let mut all = finished;
    if let Some(block) = opened {
        all.push(block.finish())?;
    }
    Ok(all)
}

fn opened_with_code(opened: Option<Block>, line: &Line) -> Result<Option<Block>, AllocError>
    ensures { IfOk result (λ block. block ≡ option_map (with_code (words_of line.now)) opened) }
{
    match opened {
        Some(block) => Ok(Some(block.with_code(line)?)),
        None => Ok(None),
    }
}

fn opened_with_values(opened: Option<Block>, line: &Line) -> Result<Option<Block>, AllocError>
    ensures { IfOk result (λ block. block ≡ option_map (with_values (words_of line.now)) opened) }
{
    match opened {
        Some(block) => Ok(Some(block.with_values(line)?)),
        None => Ok(None),
    }
}

// The shape, with the number of a line of this kind.
fn with_limit(key: Key, number: u32, shape: Shape) -> Shape
    ensures { result ≡ with_limit key number shape }
{
    match key {
        Key::Frames => Shape {
            user_frames: number,
            ..shape
        },
        Key::Sectors => Shape {
            sectors: number,
            ..shape
        },
        Key::Quantum => Shape {
            quantum: number,
            ..shape
        },
        Key::Budget => Shape {
            budget: number,
            ..shape
        },
        _ => shape,
    }
}

// The place of the first program with this name, or their number where none has it.
fn place_of(programs: &[Program], name: &[u8]) -> u32
    requires few { length programs.now ≤ 16 }
    ensures { result ≡ position_or_len (has_name name.now) programs.now }
{
    let mut place = 0;
    for program in programs {
        if has_name(program, name) {
            return place;
        }
        place += 1;
    }
    place
}

/// What the lines so far say: at most 16 programs. Contracts see it as the facts of those lines.
#[derive(Drop)]
pub struct SoFar {
    last: Option<Key>,
    shape: Shape,
    finished: Vec<Program>,
    opened: Option<Block>,
    starts: Vec<Start>,
    panics: Vec<PanicLine>,
}

impl Model for SoFar {
    ghost use Rattle.std.specs.Prelude.{◌≤◌, ◌++◌, length, option_to_list};
    ghost use Rattle.world_file.specs.WorldFacts.{Facts};

    ghost Value = { Facts };

    ghost view = { λ s. record { last = s.last; shape = s.shape; finished = s.finished.items; opened = s.opened; starts = s.starts.items; panics = s.panics.items } };

    ghost invariant = { λ s. length (s.finished.items ++ option_to_list s.opened) ≤ 16 };
}

impl SoFar {
    /// What no line says.
    pub fn new(alloc: Global) -> SoFar
        ensures { result ≡ nothing_said }
    {
        SoFar {
            last: None,
            shape: Shape {
                user_frames: 0,
                sectors: 0,
                quantum: 0,
                budget: 0,
            },
            finished: Vec::new(alloc),
            opened: None,
            starts: Vec::new(alloc),
            panics: Vec::new(alloc),
        }
    }

    /// What is said with one more line.
    #[tactic(auto, unfolding(crate::specs::WorldReading::with_line))]
    pub fn with_line(self, alloc: Global, line: &Line) -> Result<SoFar, AllocError>
        requires room { key line.now ≡ ProgramKey → length (programs_of self) < 16 }
        ensures { IfOk result (λ so_far. so_far ≡ with_line self line.now) }
    {
        let key = line.key();
        match key {
            Key::Program => self.with_program(alloc, line),
            Key::Code => self.with_code(line),
            Key::Data => self.with_values(line),
            Key::Start => self.with_start(line),
            Key::Panic => self.with_panic(alloc, line),
            _ => Ok(SoFar {
                last: Some(key),
                shape: with_limit(key, line.number(1), self.shape),
                ..self
            }),
        }
    }

    // What is said with a program line.
    #[tactic(auto, unfolding(crate::specs::WorldReading::with_line))]
    fn with_program(self, alloc: Global, line: &Line) -> Result<SoFar, AllocError>
        requires program { key line.now ≡ ProgramKey }
        requires room { length (programs_of self) < 16 }
        ensures { IfOk result (λ so_far. so_far ≡ with_line self line.now) }
    {
        Ok(SoFar {
            last: Some(Key::Program),
            finished: finished_with(self.finished, self.opened)?,
            opened: Some(Block::new(alloc, line.token(1))?),
            ..self
        })
    }

    // What is said with a code line.
    #[tactic(auto, unfolding(crate::specs::WorldReading::with_line))]
    fn with_code(self, line: &Line) -> Result<SoFar, AllocError>
        requires code { key line.now ≡ CodeKey }
        ensures { IfOk result (λ so_far. so_far ≡ with_line self line.now) }
    {
        Ok(SoFar {
            last: Some(Key::Code),
            opened: opened_with_code(self.opened, line)?,
            ..self
        })
    }

    // What is said with a data line.
    #[tactic(auto, unfolding(crate::specs::WorldReading::with_line))]
    fn with_values(self, line: &Line) -> Result<SoFar, AllocError>
        requires values { key line.now ≡ DataKey }
        ensures { IfOk result (λ so_far. so_far ≡ with_line self line.now) }
    {
        Ok(SoFar {
            last: Some(Key::Data),
            opened: opened_with_values(self.opened, line)?,
            ..self
        })
    }

    // What is said with a start line.
    #[tactic(auto, unfolding(crate::specs::WorldReading::with_line))]
    fn with_start(self, line: &Line) -> Result<SoFar, AllocError>
        requires start { key line.now ≡ StartKey }
        ensures { IfOk result (λ so_far. so_far ≡ with_line self line.now) }
    {
        let finished = finished_with(self.finished, self.opened)?;
        let starts = starts_with(self.starts, &finished, line)?;
        Ok(SoFar {
            last: Some(Key::Start),
            finished,
            opened: None,
            starts,
            ..self
        })
    }

    // What is said with a panic line.
    #[tactic(auto, unfolding(crate::specs::WorldReading::with_line))]
    fn with_panic(self, alloc: Global, line: &Line) -> Result<SoFar, AllocError>
        requires panic { key line.now ≡ PanicKey }
        ensures { IfOk result (λ so_far. so_far ≡ with_line self line.now) }
    {
        Ok(SoFar {
            last: Some(Key::Panic),
            panics: panics_with(alloc, self.panics, line)?,
            ..self
        })
    }

    /// What the line before is.
    pub fn last(&self) -> Option<Key>
        ensures { result ≡ self.now.last }
    {
        self.last
    }

    pub fn program_count(&self) -> usize
        ensures { result ≡ length (programs_of self.now) }
    {
        let opened = if self.opened.is_some() { 1 } else { 0 };
        self.finished.len() + opened
    }

    pub fn start_count(&self) -> usize
        ensures { result ≡ length self.now.starts }
    {
        self.starts.len()
    }

    pub fn panic_count(&self) -> usize
        ensures { result ≡ length self.now.panics }
    {
        self.panics.len()
    }

    /// The trap of the panic line before, 0 where there is none.
    pub fn last_trap(&self) -> u32
        ensures { result ≡ last_trap self.now.panics }
    {
        match self.panics.last() {
            Some(panic) => panic.trap,
            None => 0,
        }
    }

    /// The words of code of the block that is not finished.
    pub fn code_count(&self) -> usize
        ensures { result ≡ code_count self.now.opened }
    {
        match &self.opened {
            Some(block) => block.code.len(),
            None => 0,
        }
    }

    /// The words of data of the block that is not finished.
    pub fn data_count(&self) -> usize
        ensures { result ≡ data_count self.now.opened }
    {
        match &self.opened {
            Some(block) => block.values.len(),
            None => 0,
        }
    }

    /// Whether a program has this name.
    pub fn has_program(&self, name: &[u8]) -> bool
        ensures { result ≡ list_any (has_name name.now) (programs_of self.now) }
    {
        is_named(&self.finished, name) || self.has_opened(name)
    }

    /// Whether all starts so far, with one of the program with this name, need more pages than there are frames.
    pub fn lacks_frames(&self, name: &[u8]) -> bool
        ensures { result ≡ nat_lt self.now.shape.user_frames (start_pages (programs_of self.now) self.now.starts + named_pages name.now (programs_of self.now)) }
    {
        let mut free = self.shape.user_frames as usize;
        for start in &self.starts {
            let pages = self.pages_at(start.program);
            if pages > free {
                return true;
            }
            free -= pages;
        }
        self.named_pages(name) > free
    }

    // The pages that a start of the program at this place needs, 0 where none is there.
    fn pages_at(&self, place: u32) -> usize
        ensures { result ≡ pages_of_found (slice_get (programs_of self.now) place) }
    {
        let place = place as usize;
        match self.finished.get(place) {
            Some(program) => started_page_count(program.code.items(), program.values.items()),
            None if place == self.finished.len() => self.current_pages(),
            None => 0,
        }
    }

    // The pages that a start of the block that is not finished needs, 0 where there is none.
    fn current_pages(&self) -> usize
        ensures { result ≡ pages_of_found self.now.opened }
    {
        match &self.opened {
            Some(block) => block.page_count(),
            None => 0,
        }
    }

    // The pages that a start of the program with this name needs, 0 where none has it.
    fn named_pages(&self, name: &[u8]) -> usize
        ensures { result ≡ named_pages name.now (programs_of self.now) }
    {
        match pages_named(&self.finished, name) {
            Some(pages) => pages,
            None => self.opened_pages(name),
        }
    }

    fn opened_pages(&self, name: &[u8]) -> usize
        ensures { result ≡ named_pages name.now (option_to_list self.now.opened) }
    {
        match &self.opened {
            Some(block) if block.has_name(name) => block.page_count(),
            _ => 0,
        }
    }

    /// The world that is said.
    pub fn into_world(self, alloc: Global) -> Result<World, AllocError>
        ensures { IfOk result (λ world. world ≡ world_of self) }
    {
        let SoFar {
            last: _,
            shape,
            finished,
            opened,
            starts,
            panics,
        } = self;
        Ok(World {
            load: Load {
                shape,
                files: List::new(Vec::new(alloc)),
                programs: List::new(finished_with(finished, opened)?),
                starts: List::new(starts),
            },
            typed0: List::new(Vec::new(alloc)),
            typed1: List::new(Vec::new(alloc)),
            panics: List::new(panics),
        })
    }

    fn has_opened(&self, name: &[u8]) -> bool
        ensures { result ≡ list_any (has_name name.now) (option_to_list self.now.opened) }
    {
        match &self.opened {
            Some(block) => block.has_name(name),
            None => false,
        }
    }
}

// The starts, with that of a line.
fn starts_with(
    starts: Vec<Start>,
    programs: &[Program],
    line: &Line,
) -> Result<Vec<Start>, AllocError>
    requires few { length programs.now ≤ 16 }
    ensures { IfOk result (λ all. all.items ≡ starts.items ++ start_of programs.now line.now ∷ []) }
{
    let mut all = starts;
    all.push(Start {
        program: place_of(programs, line.token(1)),
        tty: line.number(2),
    })?;
    Ok(all)
}

// The panics, with that of a line.
fn panics_with(
    alloc: Global,
    panics: Vec<PanicLine>,
    line: &Line,
) -> Result<Vec<PanicLine>, AllocError>
    ensures { IfOk result (λ all. all.items ≡ panics.items ++ bare_panic (number_at 1 line.now) (number_at 2 line.now) ∷ []) }
{
    let mut all = panics;
    all.push(PanicLine {
        trap: line.number(1),
        store: line.number(2),
        damages: List::new(Vec::new(alloc)),
        agains: List::new(Vec::new(alloc)),
    })?;
    Ok(all)
}

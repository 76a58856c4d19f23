//! A task is done, but for the outputs.
ghost use Rattle.std.specs.Prelude.{◌≡◌, ◌+◌, ◌<◌, ◌≤◌, ◌^◌, [], Some, None, option_map, IfOk, IfErr};
ghost use Rattle.ndr_table.specs.Shown.{shown};
ghost use Rattle.server_command.specs.Tables.{shown_by};
ghost use Rattle.replay.specs.Meaning.{service_of};
ghost use Rattle.replay.specs.Meaning.{IsSummary};
ghost use Rattle.rpc_app.specs.Asks.{IsInRange};
ghost use Rattle.rpc_app.specs.Making.{WhyNot, WhyNotFile, WhyNotFiles, WhyNotTask};
ghost use Rattle.rpc_app.specs.Runs.{IsLoaded, IsTooLong, MakesOf, ServesText, Serves, RefusesText, DoesFiles, DoesTask};
ghost use Rattle.rpc_app.specs.Runs as runs;
ghost use Rattle.rpc_app.specs.Words.{told_files, told_task};

use crate::command::Command;
use crate::idl::interface;
use crate::limits::limit;
use crate::load::{LoadFault, load_file};
use crate::make::{MakeFault, make};
use crate::words::{FileTask, Task};
use base_words::put;
use ndr_table::Table;
use replay::Replayed;
use rpc_base::{NoMemory, Octets, Shelf};
use std::alloc::Global;

/// Why a task isn't done.
#[derive(Debug, Drop)]
pub enum TaskFault {
    /// A file is none that its command takes, as this text says.
    Refused(Vec<u8>),
    /// The shelf failed.
    Failed,
    /// There is no memory.
    Memory,
}

impl From<MakeFault> for TaskFault {
    ghost use Rattle.std.specs.Prelude.{◌≡◌};
    ghost use Rattle.rpc_app.specs.Making.{task_fault};

    ghost from_gives = { λ m e. e ≡ task_fault m };

    fn from(fault: MakeFault) -> Self {
        match fault {
            MakeFault::Refused(line) => TaskFault::Refused(line),
            MakeFault::Memory => TaskFault::Memory,
        }
    }
}

impl From<NoMemory> for TaskFault {
    ghost use Rattle.std.specs.Prelude.{◌≡◌};
    ghost use Rattle.rpc_app.specs.declared.task.TaskFault.TheVariants.{Memory};

    ghost from_gives = { λ _ e. e ≡ Memory };

    fn from(_: NoMemory) -> Self {
        TaskFault::Memory
    }
}

fn long_refusal(alloc: Global) -> Result<Vec<u8>, NoMemory>
    ensures { IfOk result (λ text. text.items ≡ runs.long_refusal) }
{
    let mut text = Vec::new(alloc);
    put(b"refused: file too long\n", &mut text)?;
    Ok(text)
}

/// Loads a file of at most this many octets.
///
/// # Errors
///
/// `Refused` where the file is longer than that, `Failed` where the shelf fails, and `Memory` where
/// there is no memory for it.
pub fn load<F: Shelf>(
    alloc: Global,
    most: usize,
    name: &str,
    shelf: &mut F,
) -> Result<Vec<u8>, TaskFault>
    requires { most + 1 < 2 ^ 64 }
    ensures loaded { IfOk result (λ octets. IsLoaded most (F.files shelf.old) name.now octets.items) }
    ensures files { F.files shelf.new ≡ F.files shelf.old }
    ensures later { F.faults shelf.old ≤ F.faults shelf.new }
    ensures fault { IfErr result (WhyNot (IsTooLong (F.files shelf.old) most name.now) (F.faults shelf.old) (F.faults shelf.new)) }
{
    match load_file(alloc, shelf, name, most) {
        Ok(octets) => Ok(octets),
        Err(LoadFault::Failed) => Err(TaskFault::Failed),
        Err(LoadFault::TooLong) => Err(TaskFault::Refused(long_refusal(alloc)?)),
        Err(LoadFault::Memory) => Err(TaskFault::Memory),
    }
}

/// The table of the interface of an interface text.
///
/// # Errors
///
/// `Refused` with the text that says why a file is none that its command takes, `Failed` where the
/// shelf fails, and `Memory` where memory runs out.
pub fn text_table<F: Shelf>(alloc: Global, name: &str, shelf: &mut F) -> Result<Table, TaskFault>
    ensures made { IfOk result (λ t. ServesText (F.files shelf.old) name.now (Some (shown t))) }
    ensures files { F.files shelf.new ≡ F.files shelf.old }
    ensures later { F.faults shelf.old ≤ F.faults shelf.new }
    ensures fault { IfErr result (WhyNotFile None Command.Idl (F.files shelf.old) name.now (F.faults shelf.old) (F.faults shelf.new)) }
{
    let octets = load(alloc, limit(Command::Idl), name, shelf)?;
    let table = interface(alloc, octets.as_slice())?;
    Ok(table)
}

/// The same, where one is named.
///
/// # Errors
///
/// `Refused` with the text that says why a file is none that its command takes, `Failed` where the
/// shelf fails, and `Memory` where memory runs out.
pub fn echo_of<F: Shelf>(
    alloc: Global,
    name: Option<&str>,
    shelf: &mut F,
) -> Result<Option<Table>, TaskFault>
    ensures made { IfOk result (λ t. Serves (F.files shelf.old) (option_map (λ n. n.now) name.entry) (shown_by (λ t. t) t)) }
    ensures files { F.files shelf.new ≡ F.files shelf.old }
    ensures later { F.faults shelf.old ≤ F.faults shelf.new }
    ensures fault { IfErr result (WhyNot (RefusesText (F.files shelf.old) (option_map (λ n. n.now) name.entry)) (F.faults shelf.old) (F.faults shelf.new)) }
{
    match name {
        None => Ok(None),
        Some(name) => {
            let table = text_table(alloc, name, shelf)?;
            Ok(Some(table))
        }
    }
}

/// What the command makes of a file.
fn file_made<F: Shelf>(
    alloc: Global,
    command: Command,
    echo: Option<&Table>,
    name: &str,
    shelf: &mut F,
) -> Result<Replayed, TaskFault>
    ensures made { IfOk result (λ r. MakesOf (F.files shelf.old) (shown_by (λ t. t.now) echo.entry) command name.now r.out r.log) }
    ensures fault { IfErr result (WhyNotFile (shown_by (λ t. t.now) echo.entry) command (F.files shelf.old) name.now (F.faults shelf.old) (F.faults shelf.new)) }
{
    let octets = load(alloc, limit(command), name, shelf)?;
    let made = make(alloc, command, echo, octets.as_slice())?;
    Ok(made)
}

/// What a command makes of its files: an interface text is loaded, read and checked first, and then the command's file.
fn files_done<F: Shelf>(
    alloc: Global,
    task: FileTask<'_>,
    shelf: &mut F,
) -> Result<Replayed, TaskFault>
    ensures made { IfOk result (λ r. DoesFiles (F.files shelf.old) (told_files task.entry) r.out r.log) }
    ensures fault { IfErr result (WhyNotFiles (told_files task.entry) (F.files shelf.old) (F.faults shelf.old) (F.faults shelf.new)) }
{
    let echo = echo_of(alloc, task.idl, shelf)?;
    let made = file_made(alloc, task.command, echo.as_ref(), task.file, shelf)?;
    Ok(made)
}

/// Plays a load, and makes its line.
fn load_done(alloc: Global, number: u64, steps: u32) -> Result<Replayed, TaskFault>
    requires { steps ≤ 100000 }
    ensures out { IfOk result (λ r. IsSummary (service_of None) number steps r.out) }
    ensures log { IfOk result (λ r. r.log ≡ []) }
    ensures fault { IfErr result (λ e. e ≡ TaskFault.Memory) }
{
    let text = replay::load(alloc, number, steps)?;
    Ok(Replayed {
        out: Octets::from_vec(text),
        log: Octets::new(alloc),
    })
}

/// What the task makes.
///
/// # Errors
///
/// `Refused` with the text that says why a file is none that its command takes, `Failed` where the
/// shelf fails, and `Memory` where memory runs out.
pub fn done<F: Shelf>(alloc: Global, task: Task<'_>, shelf: &mut F) -> Result<Replayed, TaskFault>
    requires { IsInRange (told_task task) }
    ensures made { IfOk result (λ r. DoesTask (F.files shelf.old) (told_task task.entry) r.out r.log) }
    ensures fault { IfErr result (WhyNotTask (told_task task.entry) (F.files shelf.old) (F.faults shelf.old) (F.faults shelf.new)) }
{
    match task {
        Task::File(task) => files_done(alloc, task, shelf),
        Task::Load { number, steps } => load_done(alloc, number, steps),
    }
}

//! Answers as text.
ghost use Rattle.std.specs.Prelude.{◌≡◌, ◌++◌, OnOk};
ghost use Rattle.ag_model.specs.declared.answer.Answer.TheVariants.{OwnRow, Row, Started, Suspects, Page, Sectors, Status, Joined, Primary, Stopped, DeviceFailed, No};
ghost use Rattle.ag_transcript.specs.Answers.{answer_text};

use crate::refusal::put_refusal;
use crate::text::{put_named, put_node, put_text, put_two};
use crate::words::{Print, put_list};
use ag_model::answer::{Answer, Cell, Refusal, Role, SuspectRow};
use ag_model::value::{NoMemory, Value, Version};

/// Adds what a transaction read at the end.
fn put_own_row(value: &Value, out: &mut Vec<u8>) -> Result<(), NoMemory>
    ensures { OnOk result (out.new.items ≡ out.old.items ++ answer_text (OwnRow value.now)) }
{
    put_text(b"row ", out)?;
    value.print(out)
}

/// Adds what a session read at the end.
fn put_row(front: u64, value: &Value, out: &mut Vec<u8>) -> Result<(), NoMemory>
    ensures { OnOk result (out.new.items ≡ out.old.items ++ answer_text (Row front value.now)) }
{
    put_named(b"row ", front, out)?;
    put_text(b" ", out)?;
    value.print(out)
}

/// Adds how a replica started at the end.
fn put_started(
    role: Role,
    term: u64,
    end: u64,
    front: u64,
    out: &mut Vec<u8>,
) -> Result<(), NoMemory>
    ensures { OnOk result (out.new.items ≡ out.old.items ++ answer_text (Started role term end front)) }
{
    put_text(b"started ", out)?;
    role.print(out)?;
    put_named(b" ", term, out)?;
    put_two(b" ", end, front, out)
}

/// Adds the suspect list at the end.
fn put_suspects(rows: &[SuspectRow], out: &mut Vec<u8>) -> Result<(), NoMemory>
    ensures { OnOk result (out.new.items ≡ out.old.items ++ answer_text (Suspects rows.now)) }
{
    put_text(b"suspects ", out)?;
    put_list(rows, out)
}

/// Adds what a page holds at the end.
fn put_page(lsn: u64, horizon: u64, versions: &[Version], out: &mut Vec<u8>) -> Result<(), NoMemory>
    ensures { OnOk result (out.new.items ≡ out.old.items ++ answer_text (Page lsn horizon versions.now)) }
{
    put_two(b"page ", lsn, horizon, out)?;
    put_text(b" ", out)?;
    put_list(versions, out)
}

/// Adds the cells of an image at the end.
fn put_sectors(cells: &[Cell], out: &mut Vec<u8>) -> Result<(), NoMemory>
    ensures { OnOk result (out.new.items ≡ out.old.items ++ answer_text (Sectors cells.now)) }
{
    put_text(b"sectors ", out)?;
    put_list(cells, out)
}

/// Adds how a replica stands at the end.
fn put_status(
    role: Role,
    state: u8,
    term: u64,
    end: u64,
    front: u64,
    out: &mut Vec<u8>,
) -> Result<(), NoMemory>
    ensures { OnOk result (out.new.items ≡ out.old.items ++ answer_text (Status role state term end front)) }
{
    put_text(b"status ", out)?;
    role.print(out)?;
    put_two(b" ", u64::from(state), term, out)?;
    put_two(b" ", end, front, out)
}

/// Adds whom a replica joined at the end.
fn put_joined(term: u64, primary: u8, out: &mut Vec<u8>) -> Result<(), NoMemory>
    ensures { OnOk result (out.new.items ≡ out.old.items ++ answer_text (Joined term primary)) }
{
    put_named(b"joined ", term, out)?;
    put_node(b" ", primary, out)
}

/// Adds the new primary at the end.
fn put_primary(node: u8, term: u64, lsn: u64, out: &mut Vec<u8>) -> Result<(), NoMemory>
    ensures { OnOk result (out.new.items ≡ out.old.items ++ answer_text (Primary node term lsn)) }
{
    put_node(b"primary ", node, out)?;
    put_two(b" ", term, lsn, out)
}

/// Adds where a scripted stop came at the end.
fn put_stopped(write: u32, step: u32, torn: &[u16], out: &mut Vec<u8>) -> Result<(), NoMemory>
    ensures { OnOk result (out.new.items ≡ out.old.items ++ answer_text (Stopped write step torn.now)) }
{
    put_named(b"stopped ", u64::from(write), out)?;
    put_named(b" step=", u64::from(step), out)?;
    put_text(b" torn=", out)?;
    put_list(torn, out)
}

/// Adds where a scripted fail came at the end.
fn put_failed(node: u8, step: u32, out: &mut Vec<u8>) -> Result<(), NoMemory>
    ensures { OnOk result (out.new.items ≡ out.old.items ++ answer_text (DeviceFailed node step)) }
{
    put_node(b"device_failed ", node, out)?;
    put_named(b" step=", u64::from(step), out)
}

/// Adds a refusal at the end.
fn put_no(refusal: Refusal, out: &mut Vec<u8>) -> Result<(), NoMemory>
    ensures { OnOk result (out.new.items ≡ out.old.items ++ answer_text (No refusal)) }
{
    put_text(b"no ", out)?;
    put_refusal(refusal, out)
}

/// Adds an answer at the end of `out`, without the end of its line. The texts are this project's own.
///
/// An error leaves open what `out` has, which may be a part of the line.
pub fn print_answer(a: &Answer, out: &mut Vec<u8>) -> Result<(), NoMemory>
    ensures { OnOk result (out.new.items ≡ out.old.items ++ answer_text a.now) }
{
    match a {
        Answer::Txn { txn } => put_named(b"txn ", *txn, out)?,
        Answer::OwnRow { value } => put_own_row(value, out)?,
        Answer::OwnAbsent => put_text(b"absent", out)?,
        Answer::Lsn { lsn } => put_named(b"lsn ", *lsn, out)?,
        Answer::Ended => put_text(b"ended", out)?,
        Answer::Hardened { lsn } => put_named(b"hardened ", *lsn, out)?,
        Answer::SyncAt { lsn } => put_named(b"sync ", *lsn, out)?,
        Answer::LocalAt { lsn } => put_named(b"local ", *lsn, out)?,
        Answer::Sent { lsn } => put_named(b"sent ", *lsn, out)?,
        Answer::Lost => put_text(b"lost", out)?,
        Answer::Applied { lsn } => put_named(b"applied ", *lsn, out)?,
        Answer::Raised { lsn } => put_named(b"raised ", *lsn, out)?,
        Answer::Front { lsn } => put_named(b"front ", *lsn, out)?,
        Answer::Row { front, value } => put_row(*front, value, out)?,
        Answer::Absent { front } => put_named(b"absent ", *front, out)?,
        Answer::Snap { front } => put_named(b"snap ", *front, out)?,
        Answer::Closed => put_text(b"closed", out)?,
        Answer::Reported => put_text(b"reported", out)?,
        Answer::Flushed { lsn } => put_named(b"flushed ", *lsn, out)?,
        Answer::Crashed => put_text(b"crashed", out)?,
        Answer::Started {
            role,
            term,
            end,
            front,
        } => put_started(*role, *term, *end, *front, out)?,
        Answer::Spoiled => put_text(b"spoiled", out)?,
        Answer::Asked => put_text(b"asked", out)?,
        Answer::Suspects { rows } => put_suspects(rows.as_slice(), out)?,
        Answer::PageBad => put_text(b"page bad", out)?,
        Answer::Page {
            lsn,
            horizon,
            versions,
        } => put_page(*lsn, *horizon, versions.as_slice(), out)?,
        Answer::Sectors { cells } => put_sectors(cells.as_slice(), out)?,
        Answer::Status {
            role,
            state,
            term,
            end,
            front,
        } => put_status(*role, *state, *term, *end, *front, out)?,
        Answer::Cut => put_text(b"cut", out)?,
        Answer::Mended => put_text(b"mended", out)?,
        Answer::Joined { term, primary } => put_joined(*term, *primary, out)?,
        Answer::Resumed => put_text(b"resumed", out)?,
        Answer::Synchronised => put_text(b"synchronised", out)?,
        Answer::TimedOut => put_text(b"timedout", out)?,
        Answer::Primary { node, term, lsn } => put_primary(*node, *term, *lsn, out)?,
        Answer::Reverted { lsn } => put_named(b"reverted ", *lsn, out)?,
        Answer::Hello { fork } => put_named(b"hello ", *fork, out)?,
        Answer::State { state, end } => put_two(b"state ", u64::from(*state), *end, out)?,
        Answer::Known { lsn } => put_named(b"known ", *lsn, out)?,
        Answer::Refused { page } => put_named(b"refused ", u64::from(*page), out)?,
        Answer::Gave { page, lsn } => put_two(b"gave ", u64::from(*page), *lsn, out)?,
        Answer::Installed { page, lsn } => put_two(b"installed ", u64::from(*page), *lsn, out)?,
        Answer::Holding { page, lsn } => put_two(b"holding ", u64::from(*page), *lsn, out)?,
        Answer::NoPage { page } => put_named(b"nopage ", u64::from(*page), out)?,
        Answer::Stopped { write, step, torn } => put_stopped(*write, *step, torn.as_slice(), out)?,
        Answer::DeviceFailed { node, step } => put_failed(*node, *step, out)?,
        Answer::No(refusal) => put_no(*refusal, out)?,
    }
    Ok(())
}

ghost use Rattle.std.specs.Prelude.{◌≡◌, ◌++◌, OnOk};
ghost use Rattle.std.specs.List.{flat_map};
ghost use Rattle.lab_model.specs.Report.{answer_text, budget_text, outcome_text};
ghost use Rattle.lab_model.specs.Report.{reply_text, text_line};

use lab_model::{Answer, Outcome};
use lab_sector::NoMemory;
use lab_state::Reply;
use lab_text::{push_number, push_runs};

/// Appends `accepted budget=B`, as a line.
pub(crate) fn push_budget(out: &mut Vec<u8>, budget: u64) -> Result<(), NoMemory>
    ensures { OnOk result (out.new.items ≡ out.old.items ++ text_line (budget_text budget)) }
{
    out.extend_from_slice(b"accepted budget=")?;
    push_number(out, budget)?;
    out.push(b'\n')?;
    Ok(())
}

/// Appends what commands told, a line each.
pub(crate) fn push_replies(out: &mut Vec<u8>, replies: &[Reply]) -> Result<(), NoMemory>
    ensures { OnOk result (out.new.items
        ≡ out.old.items ++ flat_map (λ reply. text_line (reply_text reply)) replies.now) }
{
    for reply in replies {
        push_reply(out, reply)?;
    }
    Ok(())
}

/// Appends `script LINE TEXT`, as a line.
fn push_reply(out: &mut Vec<u8>, reply: &Reply) -> Result<(), NoMemory>
    ensures { OnOk result (out.new.items ≡ out.old.items ++ text_line (reply_text reply.now)) }
{
    out.extend_from_slice(b"script ")?;
    push_number(out, reply.line)?;
    out.push(b' ')?;
    out.extend_from_slice(reply.text.as_slice())?;
    out.push(b'\n')?;
    Ok(())
}

/// Appends a log's answers, a line each.
pub(crate) fn push_answers(out: &mut Vec<u8>, answers: &[Answer]) -> Result<(), NoMemory>
    ensures { OnOk result (out.new.items
        ≡ out.old.items ++ flat_map (λ answer. text_line (answer_text answer)) answers.now) }
{
    for answer in answers {
        push_answer(out, answer)?;
    }
    Ok(())
}

/// Appends `LINE ACTION RESULT`, as a line.
fn push_answer(out: &mut Vec<u8>, answer: &Answer) -> Result<(), NoMemory>
    ensures { OnOk result (out.new.items ≡ out.old.items ++ text_line (answer_text answer.now)) }
{
    push_number(out, answer.line)?;
    out.push(b' ')?;
    out.extend_from_slice(answer.action.word().as_bytes())?;
    out.push(b' ')?;
    push_outcome(out, &answer.outcome)?;
    out.push(b'\n')?;
    Ok(())
}

/// Appends how an operation ended.
fn push_outcome(out: &mut Vec<u8>, outcome: &Outcome) -> Result<(), NoMemory>
    ensures { OnOk result (out.new.items ≡ out.old.items ++ outcome_text outcome.now) }
{
    match outcome {
        Outcome::Fine => out.extend_from_slice(b"ok")?,
        Outcome::Eio => out.extend_from_slice(b"EIO")?,
        Outcome::Runs(runs) => push_runs(out, runs)?,
    }
    Ok(())
}

// The second service of document 01: the evidence of a basis, made into a lent buffer. Any bytes may come in.
#![tactic(auto)]

ghost use Rattle.std.specs.Prelude.{◌≡◌};
ghost use Rattle.rules.specs.Evidence.{make_evidence};
ghost use Rattle.verdict.specs.Replies.{reply_meant};

use answer_file::read_answer_into;
use claim::{no_answer, no_problem};
use evidence::put_evidence;
use layout::RECORD;
use prepared::prepare;
use verdict::{Reply, Unwritten};
use writer::put_text;

// problem, answer: the two files. buffer: where the record goes.
// Makes the evidence of a basis: what is answered. The record is made whole before a byte of the buffer is touched.
pub fn evidence_files(problem: &[u8], answer: &[u8], buffer: &mut [u8]) -> Reply
    ensures result_value { reply_meant result ≡ (make_evidence problem.now answer.now buffer.old).answer }
    ensures buffer_after { buffer.new ≡ (make_evidence problem.now answer.now buffer.old).buffer }
{
    let mut read = no_problem();
    prepare(problem, &mut read)?;
    let mut given = no_answer();
    read_answer_into(answer, &read.head, false, &mut given)?;
    let mut record = [0u8; RECORD];
    let needed = put_evidence(&mut record, &read, &given.basis);
    let bytes = needed as u32;
    if buffer.len() < needed {
        return Err(Unwritten::NoRoom(bytes));
    }
    put_text(buffer, 0, &record[..needed]);
    Ok(bytes)
}

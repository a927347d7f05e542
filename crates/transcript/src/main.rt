// The transcript program: cases on standard input, each `op`, `length` and so many words; for each, on standard output, the answer in the
// same form. Before a table is read every lent output is filled with one word, so that an output left unwritten shows.
#![tactic(auto)]

mod cases;
mod checker_op;
mod layout_op;
mod name_op;
mod out;
mod payload;
mod table_op;

use cases::{NAMES, REFERENCES, ROWS, WITNESS, answer_to};
use out::{Answer, WORD_BYTES};
use payload::{PAYLOAD_BYTES, PAYLOAD_WORDS, Payload, fill};
use std::io::{self, ErrorKind, Input, Read, Write};
use table_op::Lent;
use wire::words::put_stream;

// A case that is read, what its table is read into, and its answer.
#[derive(Drop)]
struct Case {
    payload: Payload,
    lent: Lent,
    answer: Answer,
}

impl Case {
    // A payload above the limit is passed over, and its answer has no body.
    fn take<R: Read, W: Write>(&mut self, reader: &mut R, writer: &mut W) -> io::Result<()> {
        let mut head_bytes = [0u8; 2 * WORD_BYTES];
        fill(reader, &mut head_bytes)?;
        let mut head = [0u64; 2];
        put_stream(&mut head, &head_bytes);
        let [op, length] = head;
        let Case {
            payload,
            lent,
            answer,
        } = self;
        answer.begin(op);
        if let Some(words) = payload.read(reader, length)? {
            let _carried_out = answer_to(op, words, lent, answer);
        }
        writer.write_all(answer.as_bytes())
    }

    // A proved loop has to end, and nothing says that the input does: the cases are counted, up to a number that no run reaches.
    fn take_all<R: Read, W: Write>(&mut self, reader: &mut R, writer: &mut W) -> io::Result<()> {
        for _ in 0..u64::MAX {
            self.take(reader, writer)?;
        }
        Ok(())
    }
}

// "Where the input ends inside a case the program stops after the last whole answer."
fn main(rt: HostRuntime) -> io::Result<()> {
    let mut case = Case {
        payload: Payload {
            bytes: [0; PAYLOAD_BYTES],
            words: [0; PAYLOAD_WORDS],
        },
        lent: Lent {
            rows: [0; ROWS],
            refs: [0; REFERENCES],
            names: [0; NAMES],
            witness: [0; WITNESS],
        },
        answer: Answer::new(),
    };
    match case.take_all(&mut rt.reader(), &mut io::writer(&rt)) {
        Err(e) if e.kind() == ErrorKind::UnexpectedEof => Ok(()),
        ended => ended,
    }
}

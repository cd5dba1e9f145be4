use crate::answers::Answer;
use crate::faults::LineFault;
use crate::input::{line_at, shown};
use crate::printing::field;
use std::process::Abort;
use stores::faults::StoreFault;
use stores::pairs::Pair;
use table::faults::TableFault;

fn prints(rt: &impl Abort, line: u32, answer: Result<Answer, LineFault>, text: &[u8]) {
    assert!(rt; shown(&field(line, answer)) == text);
}

#[test]
fn answers_are_printed(rt: HostRuntime) {
    prints(&rt, 1, Ok(Answer::Done), b"1 ok\n");
    prints(&rt, 2, Ok(Answer::Rank(-1)), b"2 rank -1\n");
    prints(&rt, 3, Ok(Answer::Rank(255)), b"3 rank 255\n");
    prints(
        &rt,
        10,
        Ok(Answer::Block {
            buses: 256,
            posts: 0,
        }),
        b"10 block 256 0\n",
    );
    prints(
        &rt,
        u32::MAX,
        Ok(Answer::Shortfall(4_294_967_295)),
        b"4294967295 short 4294967295\n",
    );
}

#[test]
fn refusals_are_printed(rt: HostRuntime) {
    let stands = TableFault::from(StoreFault::Stands(Pair::new(0, 1)));
    prints(&rt, 4, Err(LineFault::from(stands)), b"4 no store 13 0 1\n");
    prints(
        &rt,
        8,
        Err(LineFault::from(TableFault::Level(256))),
        b"8 no table 21 256\n",
    );
    prints(
        &rt,
        7,
        Err(LineFault::from(TableFault::Bytes(usize::MAX))),
        b"7 no table 22 18446744073709551615\n",
    );
    prints(&rt, 9, Err(LineFault::Unreadable), b"9 no line 31\n");
}

#[test]
fn lines_end(rt: HostRuntime) {
    assert!(rt; line_at(b"", 0).is_none());
    assert!(rt; line_at(b"b 1\nk 2", 0) == Some(b"b 1"));
    assert!(rt; line_at(b"b 1\nk 2", 4) == Some(b"k 2"));
    assert!(rt; line_at(b"b 1\n", 4).is_none());
    assert!(rt; line_at(b"\n\n", 1) == Some(b""));
}

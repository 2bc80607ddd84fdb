//! A JPEG file is rewritten in memory.

use super::{runs_out, sending};
use exif::Counted;
use exif_rewrite::{Remove, rewrite};
use exif_test_support::shortage::{Outcome, in_turn};
use std::alloc::Global;

const STREAM: &[u8] = b"\xff\xd8\xff\xda\0\x02s\xff\xd9";

const STREAM_AB: &[u8] = b"\xff\xd8\xff\xe1\0\x0aExif\0\0ab\xff\xda\0\x02s\xff\xd9";

// What rewriting the stream with new data comes to.
fn rewriting(alloc: Global) -> Outcome {
    let mut space = [0u8; 128];
    let mut out = Counted::new(&mut space[..]);
    let mut source = Counted::new(STREAM);
    let answer = rewrite(alloc, &mut source, &mut out, Some(b"ab"), Remove::Metadata);
    let left = out.into_inner().len();
    sending(answer, &space, left, STREAM_AB)
}

#[test]
fn rewriting_runs_out_of_memory(rt: HostRuntime) {
    let refused = in_turn(rt.alloc(), || rewriting(rt.alloc()));
    runs_out(&rt, refused);
}

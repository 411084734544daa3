// What a source or a store is held to.
use fault::Fault;
use std::fmt::Display;
use std::process::Abort;
use store::{Held, Source, Store, copy};

// A handle that puts a note, as the case of a table, before what a failure says.
#[derive(Drop)]
pub(crate) struct Noted<R, N> {
    rt: R,
    note: N,
}

impl<R, N> Noted<R, N> {
    pub(crate) fn new(rt: R, note: N) -> Noted<R, N> {
        Noted { rt, note }
    }
}

impl<R: Abort, N: Display> Abort for Noted<R, N> {
    fn abort(&self) -> ! {
        self.rt.abort()
    }

    fn exit(&self, code: i32) -> ! {
        self.rt.exit(code)
    }

    fn panic<D: Display + Drop>(&self, message: D) -> ! {
        let note = &self.note;
        self.rt.panic(format_args!("{note}: {message}"))
    }
}

pub(crate) fn refused_at<T: Drop>(rt: &impl Abort, answer: Result<T, Fault>, at: u64) {
    let Err(fault) = answer else {
        panic!(rt; "not refused")
    };
    assert_eq!(rt; u8::from(fault.reason), 26);
    assert_eq!(rt; char::from(fault.layer), 's');
    assert_eq!(rt; fault.place, at);
}

// Byte numbers at and past the length.
fn past(count: u64) -> [u64; 3] {
    [count, count.saturating_add(1), u64::MAX]
}

// The source has these bytes and no others, and refuses what lies past them.
pub(crate) fn holds<S: Source>(rt: &impl Abort, source: &S, bytes: &[u8]) {
    let count = bytes.len() as u64;
    assert_eq!(rt; source.len(), count);
    for (at, byte) in (0..count).zip(bytes) {
        assert_eq!(rt; source.read(at), Ok(*byte), "byte {at}");
    }
    for at in past(count) {
        refused_at(rt, source.read(at), at);
    }
}

// The store, which has these bytes, takes another value at each of them, and at no other.
pub(crate) fn takes<S: Store>(rt: &impl Abort, store: &mut S, bytes: &mut [u8]) {
    // By place, since each turn looks at all the bytes.
    for at in 0..bytes.len() {
        bytes[at] ^= 0xff;
        assert_eq!(rt; store.write(at as u64, bytes[at]), Ok(()));
        holds(rt, store, bytes);
    }
    for at in past(bytes.len() as u64) {
        refused_at(rt, store.write(at, 1), at);
    }
    holds(rt, store, bytes);
}

// The store has the old bytes, and takes the new ones, which are as many.
pub(crate) fn overwritten<S: Store>(rt: &impl Abort, store: &mut S, old: &[u8], new: &[u8]) {
    holds(rt, store, old);
    assert_eq!(rt; copy(&Held::new(new), store), new.len() as u64);
    holds(rt, store, new);
}

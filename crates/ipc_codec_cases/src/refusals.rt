//! Bytes that are no object: each refusal, with its offset.

use crate::refusal_rows::{DEEP, REFUSED};
use ipc_codec::{DecodeRefusal, Order, decode, measure};
use std::alloc::Global;
use std::process::Abort;

// Whether both readers refuse the bytes so.
fn is_refused(alloc: Global, bytes: &[u8], order: Order, refusal: DecodeRefusal) -> bool {
    measure(bytes, order) == Err(refusal) && decode(alloc, bytes, order).err() == Some(refusal)
}

// An object within `depth` lists of one item.
fn nested(rt: &impl Abort, alloc: Global, depth: usize, inner: &[u8]) -> Vec<u8> {
    let mut bytes = Vec::new(alloc);
    for _ in 0..depth {
        bytes
            .extend_from_slice(b"\0\0\x01\0\0\0")
            .expect(rt, "memory");
    }
    bytes.extend_from_slice(inner).expect(rt, "memory");
    bytes
}

#[test]
fn each_refusal_with_its_place(rt: HostRuntime) {
    for (name, order, bytes, refusal) in &REFUSED {
        assert!(rt; is_refused(rt.alloc(), bytes, *order, *refusal), "{name}");
    }
    for (name, depth, inner, refusal) in &DEEP {
        let bytes = nested(&rt, rt.alloc(), *depth, inner);
        assert!(rt;
            is_refused(rt.alloc(), &bytes, Order::Little, *refusal),
            "{name}"
        );
    }
}

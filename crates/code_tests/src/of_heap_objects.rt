//! Many objects and large ones in a real heap. What single calls do is worked in proofs/WorkedHeaps.

use heap_objects::{Datum, Heap, HeapError};

const TEXT: u32 = 16;

const BOOLEANS: u32 = 16_777_220;

/// Interns a text.
fn intern(heap: &mut Heap, units: &[u16]) -> Result<u32, HeapError> {
    heap.intern(TEXT, units)
}

#[test]
fn interned_texts(rt: HostRuntime) {
    let mut heap = Heap::new(rt.alloc(), 100_000);
    for n in 0..20_000u16 {
        assert_eq!(rt; intern(&mut heap, &[n, 1]), Ok(u32::from(n) + 1));
    }
    assert_eq!(rt; intern(&mut heap, &[19_999, 1]), Ok(20_000));
}

#[test]
fn sixty_million_booleans(rt: HostRuntime) {
    let mut heap = Heap::new(rt.alloc(), 67_108_864);
    let made = heap.array(BOOLEANS, Datum::Int(0), 60_000_000);
    assert_eq!(rt; made, Ok(1));
    assert!(rt; heap.put(1, 59_999_999, Datum::Int(1)));
    assert_eq!(rt; heap.get(1, 59_999_999), Some(Datum::Int(1)));
    assert_eq!(rt; heap.get(1, 59_999_998), Some(Datum::Int(0)));
}

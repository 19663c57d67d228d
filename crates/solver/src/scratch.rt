// The memory that rows take which are made by what changed.
ghost use Rattle.std.specs.Prelude.{◌≡◌, length, IfSome};

use std::alloc::Global;

// Room for a list of the places that changed, for one of those whose entries are made again, and for a flag for each place, and for what each move needs.
#[derive(Drop)]
pub(crate) struct Scratch {
    pub(crate) changed: Vec<u32>,
    pub(crate) list: Vec<u32>,
    pub(crate) flags: Vec<bool>,
    pub(crate) needs: Vec<u32>,
}

impl Scratch {
    // Room for so many places and moves in memory of the heap, or nothing where that has none.
    pub(crate) fn new(heap: Global, places: u32, moves: usize) -> Option<Scratch>
        ensures changed { IfSome result (λ s. length s.changed.items ≡ places) }
        ensures list { IfSome result (λ s. length s.list.items ≡ places) }
        ensures needs { IfSome result (λ s. length s.needs.items ≡ moves) }
        ensures flags { IfSome result (λ s. length s.flags.items ≡ places) }
    {
        let Ok(changed) = vec![in heap; 0u32; places as usize] else {
            return None;
        };
        let Ok(list) = vec![in heap; 0u32; places as usize] else {
            return None;
        };
        let Ok(flags) = vec![in heap; false; places as usize] else {
            return None;
        };
        let Ok(needs) = vec![in heap; 0u32; moves] else {
            return None;
        };
        Some(Scratch {
            changed,
            list,
            flags,
            needs,
        })
    }
}

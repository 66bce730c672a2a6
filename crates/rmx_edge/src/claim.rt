// Which files a run has open, so that no output destroys the input or another output.
ghost use Rattle.std.specs.Prelude.{◌≡◌, length, IfOk};

use std::alloc::{AllocError, Global};
use std::fs::Metadata;
use std::os::unix::fs::{FileTypeExt, MetadataExt};
use std::sync::Arc;
use std::sync::atomic::{AtomicU64, Ordering};

// The file that one opener has open: its inode, and one more than its device; 0 there is no file.
#[derive(Drop)]
struct Slot {
    device: AtomicU64,
    inode: AtomicU64,
}

/// The right of one opener to name the file that it has open. All openers of a run share one table.
///
/// An opener writes its own slot and then looks at the others. Each step is sequentially consistent, so of two
/// openers of one file at least one sees the other.
#[derive(Drop)]
pub struct Claim {
    slots: Arc<Vec<Slot>>,
    place: usize,
}

/// So many openers of one run, none of which has a file open.
pub fn claims(alloc: Global, count: usize) -> Result<Vec<Claim>, AllocError>
    ensures { IfOk result (λ v. length v.items ≡ count) }
{
    let mut slots = Vec::new(alloc);
    for _ in 0..count {
        slots.push(Slot {
            device: AtomicU64::new(0),
            inode: AtomicU64::new(0),
        })?;
    }
    let slots = Arc::new(alloc, slots)?;
    let mut all = Vec::new(alloc);
    for place in 0..count {
        all.push(Claim {
            slots: slots.clone()?,
            place,
        })?;
    }
    Ok(all)
}

impl Claim {
    /// Claims the file of these facts in place of the one before, unless another opener has it open: then nothing
    /// is claimed. Devices of characters, as a terminal, hold nothing that could be lost, and are never claimed.
    pub fn take(&self, file: &Metadata) -> bool {
        self.release();
        if file.file_type().is_char_device() {
            return true;
        }
        let device = file.dev().wrapping_add(1);
        let inode = file.ino();
        self.set(device, inode);
        let taken = self.is_elsewhere(device, inode);
        if taken {
            self.release();
        }
        !taken
    }

    /// Gives up what was claimed.
    pub fn release(&self) {
        self.set(0, 0);
    }

    fn set(&self, device: u64, inode: u64) {
        if let Some(slot) = self.slots.get(self.place) {
            slot.device.store(0, Ordering::SeqCst);
            slot.inode.store(inode, Ordering::SeqCst);
            slot.device.store(device, Ordering::SeqCst);
        }
    }

    // Whether another opener has this file open.
    fn is_elsewhere(&self, device: u64, inode: u64) -> bool {
        for (place, slot) in self.slots.iter().enumerate() {
            if place != self.place
                && slot.inode.load(Ordering::SeqCst) == inode
                && slot.device.load(Ordering::SeqCst) == device
            {
                return true;
            }
        }
        false
    }
}

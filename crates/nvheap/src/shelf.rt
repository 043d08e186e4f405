// Where devices come from, and where they stay.
ghost use Rattle.std.specs.Prelude.{◌≡◌, ℕ, ◌<◌, ◌≤◌, List, Option, Some, None, vec_len, IfOk, OnOk, OnErr, length, ◌%◌, option_copied, replicate, slice_index_or};
ghost use Rattle.pmem_lines.specs.Pmem.{PmemState, IsZeroed, fresh, risen};
ghost use Rattle.shared_pool.specs.Rows.{each_of};
ghost use Rattle.nvheap.specs.Outside.{put_device, put_devices, HasSixteen};

use pmem_lines::{OutOfMemory, Pmem, SimPmem};
use std::alloc::Global;

/// Makes devices, and keeps them in 16 places.
pub trait Shelf {
    type Device: Pmem + Send + Drop;

    /// What stands in each of the 16 places, where the shelf tells it.
    ghost places: { Self → Option (List (Option PmemState)) };

    /// How many devices were made of images so far; it stays at 2^64 - 1 once it is there.
    ghost images: { Self → ℕ };

    /// A device of `lines` lines of zeros, from 1 to 1,048,576, with room for `room` events. The places and the count of
    /// images stay.
    fn take(&mut self, alloc: Global, lines: u32, room: u32) -> Result<Self::Device, OutOfMemory>
        requires some { 1 ≤ lines }
        requires few { lines ≤ 1048576 }
        ensures device { IfOk result (λ device. IsZeroed (Self.Device.state device) lines room) }
        ensures places { places self.new ≡ places self.old }
        ensures images { images self.new ≡ images self.old };

    /// A device with these words, of whole lines, from 1 to 1,048,576, with room for `room` events. The places stay, and the
    /// count of images rises by one; a refusal leaves it.
    fn take_image(
        &mut self,
        alloc: Global,
        words: &[u64],
        room: u32,
    ) -> Result<Self::Device, OutOfMemory>
        requires whole { length words.now % 8 ≡ 0 }
        requires some { 8 ≤ length words.now }
        requires few { length words.now ≤ 8388608 }
        ensures device { IfOk result (λ device. Self.Device.state device ≡ fresh words.now room) }
        ensures places { places self.new ≡ places self.old }
        ensures images { OnOk result (images self.new ≡ risen (images self.old) 1) }
        ensures refused { OnErr result (images self.new ≡ images self.old) };

    /// Sets a place to a device; the other places stay, and so does the count of images. It takes no memory.
    fn put(&mut self, arena: u32, device: Self::Device)
        requires { arena < 16 }
        ensures places { places self.new ≡ put_device (places self.old) arena (Self.Device.state device) }
        ensures sixteen { HasSixteen (places self.new) }
        ensures images { images self.new ≡ images self.old };
}

/// Sets the places from 0 on to these devices, of which there are at most 16.
pub(crate) fn put_all<H: Shelf>(shelf: &mut H, mut devices: Vec<H::Device>)
    requires { length devices.items ≤ 16 }
    ensures places { H.places shelf.new ≡ put_devices (H.places shelf.old) 0 (each_of devices.items (λ d. H.Device.state d)) }
    ensures images { H.images shelf.new ≡ H.images shelf.old }
{
    while let Some(device) = devices.pop() {
        shelf.put(devices.len() as u32, device);
    }
}

/// Keeps what is put.
#[derive(Drop)]
pub struct KeptShelf {
    devices: Vec<Option<SimPmem>>,
    images: u64,
    ghost sixteen: { vec_len devices ≡ 16 },
}

impl KeptShelf {
    /// A shelf of 16 empty places.
    pub fn new(alloc: Global) -> Result<KeptShelf, OutOfMemory>
        ensures devices { IfOk result (λ shelf. shelf.devices.items ≡ replicate 16 None) }
        ensures images { IfOk result (λ shelf. shelf.images ≡ 0) }
    {
        let mut devices = Vec::with_capacity(alloc, 16)?;
        for place in 0..16usize {
            match devices.push(None) {
                Ok(()) => {}
                Err(_) => return Err(OutOfMemory),
            }
        }
        Ok(KeptShelf { devices, images: 0 })
    }

    /// The device at a place, if there is one.
    pub fn device(&self, arena: u32) -> Option<&SimPmem>
        requires { arena < 16 }
        ensures { option_copied result ≡ slice_index_or self.now.devices.items arena None }
    {
        self.devices[arena as usize].as_ref()
    }
}

impl Shelf for KeptShelf {
    type Device = SimPmem;

    ghost places = { λ s. Some s.devices.items };

    ghost images = { λ s. s.images };

    fn take(&mut self, alloc: Global, lines: u32, room: u32) -> Result<SimPmem, OutOfMemory> {
        SimPmem::zeroed(alloc, lines, room)
    }

    fn take_image(
        &mut self,
        alloc: Global,
        words: &[u64],
        room: u32,
    ) -> Result<SimPmem, OutOfMemory> {
        let device = SimPmem::from_image(alloc, words, room)?;
        self.images = self.images.saturating_add(1);
        Ok(device)
    }

    fn put(&mut self, arena: u32, device: SimPmem) {
        self.devices[arena as usize] = Some(device);
    }
}

/// Drops what is put, and tells of no place. It counts the devices that it made of images.
#[derive(Drop)]
pub struct DropShelf {
    images: u64,
}

impl DropShelf {
    /// A shelf that made no device yet.
    pub fn new() -> DropShelf
        ensures { result.images ≡ 0 }
    {
        DropShelf { images: 0 }
    }
}

impl Shelf for DropShelf {
    type Device = SimPmem;

    ghost places = { λ _. None };

    ghost images = { λ s. s.images };

    fn take(&mut self, alloc: Global, lines: u32, room: u32) -> Result<SimPmem, OutOfMemory> {
        SimPmem::zeroed(alloc, lines, room)
    }

    fn take_image(
        &mut self,
        alloc: Global,
        words: &[u64],
        room: u32,
    ) -> Result<SimPmem, OutOfMemory> {
        let device = SimPmem::from_image(alloc, words, room)?;
        self.images = self.images.saturating_add(1);
        Ok(device)
    }

    fn put(&mut self, _arena: u32, _device: SimPmem) {}
}

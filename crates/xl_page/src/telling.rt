ghost use Rattle.xl_page.specs.Pages.{IsPage};

use crate::Page;
use std::alloc::Global;
use xl_io::{MemSink, PlainSource};
use xl_texts::{TextCommand, tell};

/// What a command writes of the input.
pub fn told<C: TextCommand>(alloc: Global, input: &[u8], room: &mut [u8]) -> Page
where
    <C as TextCommand>::By: Drop,
    ensures { IsPage ((C.promise).told input.now) result.status result.length room.new }
{
    let Ok(bytes) = input.to_vec(alloc) else {
        return Page::without_memory();
    };
    let mut source = PlainSource::new(bytes, usize::MAX);
    let mut sink = MemSink::new(alloc, usize::MAX, Vec::new(alloc));
    let run = tell::<C, PlainSource, MemSink>(alloc, &mut source, &mut sink);
    Page::after(run, &sink, room)
}

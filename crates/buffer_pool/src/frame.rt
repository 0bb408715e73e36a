//! A frame: room for one page, and what the pool knows of the page in it.
//! The pool alone makes frames and changes them.

ghost use Rattle.std.specs.Prelude.{◌≡◌, ◌-◌, ◌^◌, ◌<◌, length, IfOk};
ghost use Rattle.buffer_pool.specs.Frames.{is_idle, is_changed, is_written, holds_page, fixed, unfixed, changed, placed};
ghost use Rattle.buffer_pool.specs.declared.frame.Content.TheVariants.{Empty};

use std::alloc::Global;
use std::boxed::Box;
use std::marker::Model;
use store_api::NoMemory;
use stored_pages::layout::PAGE;
use stored_pages::lsn_in;

/// What a frame holds.
#[derive(Clone, Copy)]
pub enum Content {
    /// No page.
    Empty,
    /// Zeros, for a page that nobody has written yet.
    New,
    /// A page as it is on the disk.
    Clean,
    /// A page that was changed since.
    Dirty,
}

/// Room for one page. Contracts see the bytes, what they are, and how often the page is fixed.
#[derive(Drop)]
pub struct Frame {
    bytes: Box<[u8; PAGE]>,
    content: Content,
    fixes: u32,
}

impl Model for Frame {
    ghost use Rattle.std.specs.Prelude.{◌≡◌, length};
    ghost use Rattle.stored_pages.specs.declared.layout.TheConstants.{PAGE};
    ghost use Rattle.buffer_pool.specs.Frames.{FrameView};

    ghost Value = { FrameView };

    ghost view = { λ f. record { bytes = f.bytes.value; content = f.content; fixes = f.fixes } };

    ghost invariant = { λ f. length f.bytes.value ≡ PAGE };
}

impl Frame {
    /// A frame without a page.
    pub fn new(alloc: Global) -> Result<Frame, NoMemory>
        ensures content { IfOk result (λ frame. frame.content ≡ Empty) }
        ensures fixes { IfOk result (λ frame. frame.fixes ≡ 0) }
    {
        Ok(Frame {
            bytes: Box::new(alloc, [0; PAGE])?,
            content: Content::Empty,
            fixes: 0,
        })
    }

    pub fn bytes(&self) -> &[u8]
        ensures value { result.now ≡ self.now.bytes }
        ensures size { length result.now ≡ PAGE }
    {
        self.bytes.as_slice()
    }

    pub fn is_dirty(&self) -> bool
        ensures { result ≡ is_changed self.now.content }
    {
        self.content == Content::Dirty
    }

    /// Whether it holds a page that somebody has written.
    pub fn is_written(&self) -> bool
        ensures { result ≡ is_written self.now.content }
    {
        matches!(self.content, Content::Clean | Content::Dirty)
    }

    pub fn fixes(&self) -> u32
        ensures { result ≡ self.now.fixes }
    {
        self.fixes
    }

    /// Whether it holds a page.
    pub fn holds_page(&self) -> bool
        ensures { result ≡ holds_page self.now }
    {
        self.content != Content::Empty
    }

    /// Whether it can be given to another page.
    pub fn is_idle(&self) -> bool
        ensures { result ≡ is_idle self.now }
    {
        self.fixes == 0 && matches!(self.content, Content::Empty | Content::Clean)
    }

    /// The frame with this page in it, which is fixed once.
    pub fn brought(mut self, bytes: &[u8], content: Content) -> Frame
        requires { length bytes.now ≡ PAGE }
        ensures { result ≡ record { bytes = bytes.now; content = content; fixes = 1 } }
    {
        self.bytes.copy_from_slice(bytes);
        self.content = content;
        self.fixes = 1;
        self
    }

    /// The frame, of which the page is fixed once more.
    pub fn fixed(mut self) -> Frame
        requires { self.fixes < 2 ^ 32 - 1 }
        ensures { result ≡ fixed self }
    {
        self.fixes += 1;
        self
    }

    /// The frame, of which the page is fixed once less. A new page goes with its last fix.
    pub fn unfixed(mut self) -> Frame
        ensures { result ≡ unfixed self }
    {
        if self.content == Content::New && self.fixes == 1 {
            self.content = Content::Empty;
        }
        self.fixes = self.fixes.saturating_sub(1);
        self
    }

    /// The frame with other bytes, which the disk doesn't have.
    pub fn changed(mut self, bytes: &[u8]) -> Frame
        requires { length bytes.now ≡ PAGE }
        ensures { result ≡ changed bytes.now self }
    {
        self.bytes.copy_from_slice(bytes);
        self.content = Content::Dirty;
        self
    }

    /// The frame, of which the page is on the disk as it was with that LSN.
    pub fn placed(mut self, lsn: u64) -> Frame
        ensures { result ≡ placed lsn self }
    {
        if self.content == Content::Dirty && lsn_in(self.bytes.as_slice()) == lsn {
            self.content = Content::Clean;
        }
        self
    }
}

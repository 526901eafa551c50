ghost use Rattle.std.specs.Prelude.{◌≡◌, IfOk, OnOk, OnErr, if◌then◌else◌};
ghost use Rattle.lab_dust.specs.Dust.{opening_list};

use crate::blocks::Blocks;
use crate::message::Message;
use lab_sector::NoMemory;
use lab_text::push_number;
use std::alloc::Global;
use std::marker::Model;

/// The list of bad blocks, and two flags.
#[derive(Drop)]
pub(crate) struct BlockList {
    /// The listed blocks.
    blocks: Blocks,
    /// Whether reads of listed blocks fail; else the list is passed by.
    enabled: bool,
    /// The flag that the message `quiet` toggles.
    quiet: bool,
}

impl Model for BlockList {
    ghost use Rattle.lab_dust.specs.Dust.{DustList};

    ghost Value = { DustList };

    ghost view = { λ l. record { blocks = l.blocks; enabled = l.enabled; quiet = l.quiet } };
}

impl BlockList {
    ghost use Rattle.lab_sector.specs.declared.request.Kind.TheVariants.{Read, Write};
    ghost use Rattle.lab_dust.specs.declared.message.Message.TheVariants.{AddBlock, ClearBlocks};
    ghost use Rattle.lab_dust.specs.declared.message.Message.TheVariants.{CountBlocks, Disable};
    ghost use Rattle.lab_dust.specs.declared.message.Message.TheVariants.{Enable, QueryBlock};
    ghost use Rattle.lab_dust.specs.declared.message.Message.TheVariants.{Quiet, RemoveBlock};
    ghost use Rattle.lab_dust.specs.Dust.{after_message, after_piece, is_bad, mode_text};
    ghost use Rattle.lab_dust.specs.Dust.{quiet_text, reply_to};

    /// The opening state: no block is listed, the list is passed by, and it is verbose.
    pub(crate) fn opening(alloc: Global) -> BlockList
        ensures { result ≡ opening_list }
    {
        BlockList {
            blocks: Blocks::new(alloc),
            enabled: false,
            quiet: false,
        }
    }

    /// Whether a read of the block fails.
    #[inline]
    pub(crate) fn is_bad(&self, block: u64) -> bool
        ensures { result ≡ is_bad self.now Read block }
    {
        self.enabled && self.blocks.contains(block)
    }

    /// The block was overwritten, so it leaves the list, but not in bypass.
    #[inline]
    pub(crate) fn overwrite(&mut self, block: u64)
        ensures { self.new ≡ after_piece self.old Write block }
    {
        if self.enabled {
            self.blocks.remove(block);
        }
    }

    /// The word for whether reads of listed blocks fail.
    pub(crate) fn mode(&self) -> &'static [u8]
        ensures { result.now ≡ mode_text self.now.enabled }
    {
        if !self.enabled {
            return b"bypass";
        }
        b"fail_read_on_bad_block"
    }

    /// The word for the state of the flag `quiet`.
    pub(crate) fn loudness(&self) -> &'static [u8]
        ensures { result.now ≡ quiet_text self.now.quiet }
    {
        if self.quiet { b"quiet" } else { b"verbose" }
    }

    /// Does what the message says, and answers the reply. A refusal leaves the list as it was.
    pub(crate) fn answer(&mut self, alloc: Global, message: Message) -> Result<Vec<u8>, NoMemory>
        ensures reply { IfOk result (λ reply. reply.items ≡ reply_to self.old message) }
        ensures state { OnOk result (self.new ≡ after_message self.old message) }
        ensures err { OnErr result (self.new ≡ self.old) }
    {
        match message {
            Message::AddBlock(block) => self.add(alloc, block),
            Message::RemoveBlock(block) => self.remove(alloc, block),
            Message::QueryBlock(block) => self.query(alloc, block),
            Message::CountBlocks => self.count(alloc),
            Message::ListBlocks => self.blocks.print(alloc),
            Message::ClearBlocks => self.clear(alloc),
            Message::Enable => self.enable(alloc),
            Message::Disable => self.disable(alloc),
            Message::Quiet => self.toggle_quiet(alloc),
        }
    }

    /// Lists a block: `added`, or `already` if it was listed.
    fn add(&mut self, alloc: Global, block: u64) -> Result<Vec<u8>, NoMemory>
        ensures reply { IfOk result (λ reply. reply.items ≡ reply_to self.old (AddBlock block)) }
        ensures state { OnOk result (self.new ≡ after_message self.old (AddBlock block)) }
        ensures err { OnErr result (self.new ≡ self.old) }
    {
        let listed = self.blocks.contains(block);
        let reply = word_if(alloc, listed, b"already", b"added")?;
        self.blocks.insert(block)?;
        Ok(reply)
    }

    /// Takes a block off the list: `removed`, or `not listed` if it wasn't.
    fn remove(&mut self, alloc: Global, block: u64) -> Result<Vec<u8>, NoMemory>
        ensures reply { IfOk result (λ reply. reply.items ≡ reply_to self.old (RemoveBlock block)) }
        ensures state { OnOk result (self.new ≡ after_message self.old (RemoveBlock block)) }
        ensures err { OnErr result (self.new ≡ self.old) }
    {
        let listed = self.blocks.contains(block);
        let reply = word_if(alloc, listed, b"removed", b"not listed")?;
        self.blocks.remove(block);
        Ok(reply)
    }

    /// Whether a block is listed: `listed` or `not listed`.
    fn query(&self, alloc: Global, block: u64) -> Result<Vec<u8>, NoMemory>
        ensures { IfOk result (λ reply. reply.items ≡ reply_to self.now (QueryBlock block)) }
    {
        let listed = self.blocks.contains(block);
        word_if(alloc, listed, b"listed", b"not listed")
    }

    /// The number of listed blocks.
    fn count(&self, alloc: Global) -> Result<Vec<u8>, NoMemory>
        ensures { IfOk result (λ reply. reply.items ≡ reply_to self.now CountBlocks) }
    {
        let mut reply = Vec::new(alloc);
        push_number(&mut reply, self.blocks.len() as u64)?;
        Ok(reply)
    }

    /// Takes all blocks off the list: `cleared N`, N the number before.
    fn clear(&mut self, alloc: Global) -> Result<Vec<u8>, NoMemory>
        ensures reply { IfOk result (λ reply. reply.items ≡ reply_to self.old ClearBlocks) }
        ensures state { OnOk result (self.new ≡ after_message self.old ClearBlocks) }
        ensures err { OnErr result (self.new ≡ self.old) }
    {
        let mut reply = Vec::from_slice(alloc, b"cleared ")?;
        push_number(&mut reply, self.blocks.len() as u64)?;
        self.blocks.clear();
        Ok(reply)
    }

    /// Reads of listed blocks fail from now on: `enabled`.
    fn enable(&mut self, alloc: Global) -> Result<Vec<u8>, NoMemory>
        ensures reply { IfOk result (λ reply. reply.items ≡ reply_to self.old Enable) }
        ensures state { OnOk result (self.new ≡ after_message self.old Enable) }
        ensures err { OnErr result (self.new ≡ self.old) }
    {
        let reply = Vec::from_slice(alloc, b"enabled")?;
        self.enabled = true;
        Ok(reply)
    }

    /// The list is passed by from now on: `disabled`.
    fn disable(&mut self, alloc: Global) -> Result<Vec<u8>, NoMemory>
        ensures reply { IfOk result (λ reply. reply.items ≡ reply_to self.old Disable) }
        ensures state { OnOk result (self.new ≡ after_message self.old Disable) }
        ensures err { OnErr result (self.new ≡ self.old) }
    {
        let reply = Vec::from_slice(alloc, b"disabled")?;
        self.enabled = false;
        Ok(reply)
    }

    /// Toggles the flag `quiet`: `quiet` or `verbose`, the new state.
    fn toggle_quiet(&mut self, alloc: Global) -> Result<Vec<u8>, NoMemory>
        ensures reply { IfOk result (λ reply. reply.items ≡ reply_to self.old Quiet) }
        ensures state { OnOk result (self.new ≡ after_message self.old Quiet) }
        ensures err { OnErr result (self.new ≡ self.old) }
    {
        let reply = word_if(alloc, self.quiet, b"verbose", b"quiet")?;
        self.quiet = !self.quiet;
        Ok(reply)
    }
}

/// One of two words.
fn word_if(alloc: Global, test: bool, yes: &[u8], no: &[u8]) -> Result<Vec<u8>, NoMemory>
    ensures { IfOk result (λ word. word.items ≡ (if test then yes.now else no.now)) }
{
    let word = if test { yes } else { no };
    Ok(Vec::from_slice(alloc, word)?)
}

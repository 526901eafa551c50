ghost use Rattle.std.specs.Prelude.{◌≡◌, IfOk};
ghost use Rattle.lab_standing.specs.Linked.{link_rows};
ghost use Rattle.lab_rule_checks.specs.Search.{
  TellsReached,
  front,
  is_new,
  is_set,
  marked,
  nothing_reached,
  reach,
  reach_all,
};

use lab_sector::NoMemory;
use lab_standing::Links;
use std::alloc::Global;

/// How far a search along links has come.
#[derive(Drop)]
pub(crate) struct Search {
    /// By device number, whether the device was reached.
    pub marks: Vec<bool>,
    /// The devices that were reached and whose links are still to be followed.
    pub waiting: Vec<u32>,
}

impl Search {
    /// None of so many devices was reached.
    fn new(alloc: Global, devices: usize) -> Result<Search, NoMemory>
        ensures { IfOk result (λ search. front search ≡ nothing_reached devices) }
    {
        Ok(Search {
            marks: vec![in alloc; false; devices]?,
            waiting: Vec::new(alloc),
        })
    }

    /// Some devices are reached.
    fn reach_all(&mut self, devices: &[u32]) -> Result<(), NoMemory>
        ensures { IfOk result (λ done. front self.new ≡ reach_all devices.now (front self.old)) }
    {
        for device in devices {
            self.reach(*device)?;
        }
        Ok(())
    }

    /// A device is reached: its links are to be followed if it is new.
    fn reach(&mut self, device: u32) -> Result<(), NoMemory>
        ensures { IfOk result (λ done. front self.new ≡ reach device (front self.old)) }
    {
        if is_new(&self.marks, device as usize) {
            mark(&mut self.marks, device as usize);
            self.waiting.push(device)?;
        }
        Ok(())
    }
}

/// By device number, whether links lead to it from one of some first devices, or it is one of these.
pub(crate) fn reached(alloc: Global, links: &Links, first: &[u32]) -> Result<Vec<bool>, NoMemory>
    ensures { IfOk result (λ marks. TellsReached (link_rows links.now) first.now marks.items) }
{
    let mut search = Search::new(alloc, links.count())?;
    search.reach_all(first)?;
    while let Some(device) = search.waiting.pop() {
        search.reach_all(links.row(device as usize))?;
    }
    Ok(search.marks)
}

/// Whether there is such a device, and it isn't marked.
fn is_new(marks: &[bool], device: usize) -> bool
    ensures { result ≡ is_new marks.now device }
{
    match marks.get(device) {
        Some(mark) => !*mark,
        None => false,
    }
}

/// Whether a device is marked.
pub(crate) fn is_set(marks: &[bool], device: usize) -> bool
    ensures { result ≡ is_set marks.now device }
{
    match marks.get(device) {
        Some(mark) => *mark,
        None => false,
    }
}

/// Marks a device.
fn mark(marks: &mut Vec<bool>, device: usize)
    ensures { marks.new.items ≡ marked device marks.old.items }
{
    if let Some(mark) = marks.get_mut(device) {
        *mark = true;
    }
}

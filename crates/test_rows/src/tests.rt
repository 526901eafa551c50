mod again;
mod fakes;
mod faults;
mod laboratory;
mod listed;
mod prompt;
mod threads;
mod worked;

//! The queues of a situation, as a list.

ghost use Rattle.std.specs.Prelude.{◌≡◌, ℕ, ◌+◌, ◌-◌, ◌<◌, ◌≤◌, ◌^◌, [], ◌∷◌, ◌++◌, length, count_by, sum_by, slice_get, Some, None, true, false, is_some, if◌then◌else◌, MatchOption, OnOk, filter, vec_capacity, ◌≢◌};
ghost use Rattle.estelle_tree.specs.Links.{same_ip};
ghost use Rattle.std.specs.Option.{option_map};
ghost use Rattle.estelle_tree.specs.Queues.{waiting};
ghost use Rattle.queue_store.specs.Rows.{is_row_of, on_row, with_items, first_taken, taken_of, below_items, outside_rows, lies_inside, first_item, count_of, sift_step, sift_rows};
ghost use Rattle.queue_store.specs.Homes.{heads, queues_of, Housed, HomeAt, AllFiled, AllBelow, common_home};
ghost use Rattle.queue_store.specs.Queues.{is_declared, queue_of, declared, pushed, taken, moved_all, dropped_below, items_below};

use crate::table::Table;
use estelle_tree::{IpAddr, Path};
use std::alloc::{AllocError, Global};
use std::marker::Model;

/// The queues of a situation, seen as their list in the order in which they were declared: each with whether it is
/// a common one (ISO/IEC 9074: `common queue`), its interaction points, and what waits there, first in first out.
/// `spare` tells for how many more items, and `room` for how many more interaction points, there is memory.
pub struct Queues<T> {
    table: Table<T>,
    /// Above the number of each declared interaction point.
    numbers: u64,
}

impl<T: Drop> Drop for Queues<T> {
    fn drop(self) {
        let Queues {
            table: _,
            numbers: _,
        } = self;
    }
}

impl<T> Model for Queues<T> {
    ghost use Rattle.std.specs.Prelude.{◌≤◌, ◌^◌};
    ghost use Rattle.queue_store.specs.Queues.{Queues};

    ghost Value = { Queues T };

    ghost use Rattle.queue_store.specs.Homes.{heads, queues_of, Housed, AllFiled, AllBelow};

    ghost view = { λ s. record {
      queues = queues_of (heads s.table.rows) s.table.rows;
      spare = s.table.spare;
      room = s.table.room;
    } };

    ghost invariant = { λ s. Housed (heads s.table.rows) × AllFiled (heads s.table.rows) s.table.rows × AllBelow s.numbers (heads s.table.rows) × (s.numbers ≤ 2 ^ 32) };
}

/// The row that has the items of the queue of an interaction point.
fn home_of<T>(table: &Table<T>, ip: &IpAddr) -> Option<usize>
    requires { Housed (heads table.now.rows) }
    ensures { MatchOption result (count_by (is_row_of ip.now) table.now.rows ≡ 0) (HomeAt table.now.rows ip.now) }
{
    match table.find(&ip.path, ip.ip) {
        Some(row) => table.find(&ip.path, table.home(row)),
        None => None,
    }
}

/// The number of the interaction point whose row has the items of the common queue of an instance.
fn common_home<T>(table: &Table<T>, numbers: u64, path: &Path) -> Option<u32>
    requires housed { Housed (heads table.now.rows) }
    requires below { AllBelow numbers (heads table.now.rows) }
    requires narrow { numbers ≤ 2 ^ 32 }
    ensures { result ≡ common_home path.now (heads table.now.rows) }
{
    for number in 0..numbers {
        match table.find(path, number as u32) {
            Some(row) => {
                if table.is_common(row) {
                    return Some(table.home(row));
                }
            }
            None => {}
        }
    }
    None
}

/// A bound of one more number.
fn raised(numbers: u64, number: u32) -> u64
    requires { numbers ≤ 2 ^ 32 }
    ensures kept { numbers ≤ result }
    ensures above { number < result }
    ensures narrow { result ≤ 2 ^ 32 }
{
    let above = number as u64 + 1;
    if numbers < above { above } else { numbers }
}

/// One step of `sift`.
fn sift_one<T>(table: &mut Table<T>, source: usize, target: usize, from: u32, to: u32)
    requires source { source < length table.old.rows }
    requires target { target < length table.old.rows }
    ensures rows { table.new.rows ≡ sift_step source target from to (first_item source table.old.rows) (on_row source first_taken table.old.rows) }
    ensures spare { table.new.spare ≡ table.old.spare }
    ensures room { table.new.room ≡ table.old.room }
{
    match table.pop(source) {
        Some((number, item)) => {
            if number == from {
                table.append(target, to, item);
            } else {
                table.append(source, number, item);
            }
        }
        None => {}
    }
}

/// Each item of a row that waits at `from` goes to the end of another row and waits at `to`; the others stay,
/// in their order.
fn sift<T>(table: &mut Table<T>, source: usize, target: usize, from: u32, to: u32)
    requires source { source < length table.old.rows }
    requires target { target < length table.old.rows }
    ensures rows { table.new.rows ≡ sift_rows (count_of source table.old.rows) source target from to table.old.rows }
    ensures spare { table.new.spare ≡ table.old.spare }
    ensures room { table.new.room ≡ table.old.room }
{
    for i in 0..table.len(source) {
        sift_one(table, source, target, from, to);
    }
}

/// A row of the queue of two interaction points that is not the one with its items.
fn guest_of<T>(table: &Table<T>, from: &IpAddr, to: &IpAddr, home: usize) -> usize
    requires housed { Housed (heads table.now.rows) }
    requires filed { AllFiled (heads table.now.rows) table.now.rows }
    requires from { HomeAt table.now.rows from.now home }
    requires to { HomeAt table.now.rows to.now home }
    requires differ { same_ip from.now to.now ≡ false }
    ensures apart { result ≢ home }
    ensures empty { option_map (λ d. d.items) (slice_get table.now.rows result) ≡ Some [] }
{
    match table.find(&from.path, from.ip) {
        Some(row) => {
            if row != home {
                return row;
            }
        }
        None => unreachable!(),
    }
    match table.find(&to.path, to.ip) {
        Some(row) => row,
        None => unreachable!(),
    }
}

/// What waits at one interaction point goes, in its order, to the end of the queue of another.
fn move_between<T>(table: &mut Table<T>, source: usize, target: usize, from: &IpAddr, to: &IpAddr)
    requires housed { Housed (heads table.old.rows) }
    requires filed { AllFiled (heads table.old.rows) table.old.rows }
    requires source { HomeAt table.old.rows from.now source }
    requires target { HomeAt table.old.rows to.now target }
    requires differ { same_ip from.now to.now ≡ false }
    ensures queues { queues_of (heads table.new.rows) table.new.rows ≡ moved_all from.now to.now (queues_of (heads table.old.rows) table.old.rows) }
    ensures heads { heads table.new.rows ≡ heads table.old.rows }
    ensures filed { AllFiled (heads table.new.rows) table.new.rows }
    ensures spare { table.new.spare ≡ table.old.spare }
    ensures room { table.new.room ≡ table.old.room }
{
    if source != target {
        sift(table, source, target, from.ip, to.ip);
        return;
    }
    // Both wait in one queue: what moves stands meanwhile in a row of the queue that has no items.
    let guest = guest_of(table, from, to, source);
    sift(table, source, guest, from.ip, to.ip);
    sift(table, guest, source, to.ip, to.ip);
}

/// One step of `drain`.
fn drain_one<T>(table: &mut Table<T>, row: usize, into: &mut Vec<T>)
    requires row { row < length table.old.rows }
    requires capacity { 1 ≤ count_of row table.old.rows → length into.old.items < vec_capacity into.old }
    ensures rows { table.new.rows ≡ on_row row first_taken table.old.rows }
    ensures items { into.new.items ++ taken_of row table.new.rows ≡ into.old.items ++ taken_of row table.old.rows }
    ensures count { count_of row table.new.rows ≡ count_of row table.old.rows - 1 }
    ensures spare { 1 ≤ count_of row table.old.rows → table.new.spare ≡ table.old.spare + 1 }
    ensures room { table.new.room ≡ table.old.room }
    ensures capacity { vec_capacity into.new ≡ vec_capacity into.old }
{
    match table.pop(row) {
        Some((_, item)) => into.push_reserved(item),
        None => {}
    }
}

/// The items of a row are appended to a list.
fn drain<T>(table: &mut Table<T>, row: usize, into: &mut Vec<T>)
    requires row { row < length table.old.rows }
    requires capacity { length into.old.items + count_of row table.old.rows ≤ vec_capacity into.old }
    ensures rows { table.new.rows ≡ on_row row (with_items []) table.old.rows }
    ensures items { into.new.items ≡ into.old.items ++ taken_of row table.old.rows }
    ensures spare { table.new.spare ≡ table.old.spare + count_of row table.old.rows }
    ensures room { table.new.room ≡ table.old.room }
    ensures capacity { vec_capacity into.new ≡ vec_capacity into.old }
{
    for i in 0..table.len(row) {
        drain_one(table, row, into);
    }
}

/// The items of the rows of an instance and of those below it are appended to a list, row by row.
fn empty_below<T>(table: &mut Table<T>, path: &Path, into: &mut Vec<T>)
    requires { length into.old.items + length (below_items path.now table.old.rows) ≤ vec_capacity into.old }
    ensures rows { outside_rows path.now table.new.rows ≡ outside_rows path.now table.old.rows }
    ensures none { sum_by (λ d. length d.items) (filter (lies_inside path.now) table.new.rows) ≡ 0 }
    ensures items { into.new.items ≡ into.old.items ++ below_items path.now table.old.rows }
    ensures spare { table.new.spare ≡ table.old.spare + length (below_items path.now table.old.rows) }
    ensures room { table.new.room ≡ table.old.room }
    ensures capacity { vec_capacity into.new ≡ vec_capacity into.old }
{
    for row in 0..table.rows() {
        if path.is_at_or_above(&table.addr(row).path) {
            drain(table, row, into);
        }
    }
}

impl<T> Queues<T> {
    /// No queues. It takes no memory.
    pub fn none(alloc: Global) -> Queues<T>
        ensures { result.queues ≡ [] }
    {
        Queues {
            table: Table::none(alloc),
            numbers: 0,
        }
    }

    /// Room for so many more items and interaction points. After a refusal the queues are as before; room for
    /// items may have been made.
    pub fn reserve(&mut self, items: usize, ips: usize) -> Result<(), AllocError>
        ensures queues { self.new.queues ≡ self.old.queues }
        ensures spare { self.old.spare ≤ self.new.spare }
        ensures room { self.old.room ≤ self.new.room }
        ensures items { OnOk result (items ≤ self.new.spare) }
        ensures ips { OnOk result (ips ≤ self.new.room) }
    {
        self.table.reserve(items, ips)
    }

    /// An individual interaction point, or the first one of its instance's common queue, has an empty queue at the
    /// end of the list; another one joins the common queue. That queue is looked for by the numbers of the
    /// instance's interaction points: this takes as many look-ups as the greatest number that was declared at most.
    pub fn declare(&mut self, ip: IpAddr, common: bool)
        requires fresh { is_declared ip self.old.queues ≡ false }
        requires room { 1 ≤ self.old.room }
        ensures queues { self.new.queues ≡ declared ip common self.old.queues }
        ensures spare { self.new.spare ≡ self.old.spare }
        ensures room { self.old.room ≤ self.new.room + 1 }
    {
        let number = ip.ip;
        let home = if common {
            common_home(&self.table, self.numbers, &ip.path)
        } else {
            None
        };
        self.numbers = raised(self.numbers, number);
        self.table.add(ip, common, home.unwrap_or(number));
    }

    /// How many items wait in all.
    pub fn total(&self) -> usize
        ensures { result ≡ sum_by (λ q. length q.items) self.now.queues }
    {
        self.table.total()
    }

    /// Whether an interaction point is declared. In constant time.
    pub fn declares(&self, ip: &IpAddr) -> bool
        ensures { result ≡ is_declared ip.now self.now.queues }
    {
        home_of(&self.table, ip).is_some()
    }

    /// Appends an item to the queue of an interaction point. In constant time.
    pub fn push(&mut self, ip: &IpAddr, item: T)
        requires declared { is_declared ip.now self.old.queues ≡ true }
        requires spare { 1 ≤ self.old.spare }
        ensures queues { self.new.queues ≡ pushed ip.now item self.old.queues }
        ensures spare { self.new.spare + 1 ≡ self.old.spare }
        ensures room { self.new.room ≡ self.old.room }
    {
        match home_of(&self.table, ip) {
            Some(row) => self.table.append(row, ip.ip, item),
            None => unreachable!(),
        }
    }

    /// Takes the first item of an interaction point's queue, also one that waits at another point of a common queue.
    /// In constant time. None exactly where the queue is empty.
    pub fn take(&mut self, ip: &IpAddr) -> Option<T>
        requires { is_declared ip.now self.old.queues ≡ true }
        ensures item { result ≡ option_map (λ w. w.item) (slice_get (queue_of ip.now self.old.queues) 0) }
        ensures queues { self.new.queues ≡ taken ip.now self.old.queues }
        ensures spare { self.new.spare ≡ self.old.spare + (if is_some result then 1 else 0) }
        ensures room { self.new.room ≡ self.old.room }
    {
        match home_of(&self.table, ip) {
            Some(row) => match self.table.pop(row) {
                Some((_, item)) => Some(item),
                None => None,
            },
            None => unreachable!(),
        }
    }

    /// The first item of an interaction point's queue, and where it waits. In constant time. None exactly where the
    /// queue is empty.
    pub fn head(&self, ip: &IpAddr) -> Option<(&IpAddr, &T)>
        requires { is_declared ip.now self.now.queues ≡ true }
        ensures { option_map (λ p. record { item = p.1.now; at = p.0.now }) result ≡ slice_get (queue_of ip.now self.now.queues) 0 }
    {
        match home_of(&self.table, ip) {
            Some(row) => match self.table.first(row) {
                Some((number, item)) => match self.table.find(&ip.path, number) {
                    Some(at) => Some((self.table.addr(at), item)),
                    None => unreachable!(),
                },
                None => None,
            },
            None => unreachable!(),
        }
    }

    /// How many items wait at an interaction point; none where it is not declared. In the time of its queue's length.
    pub fn waiting(&self, ip: &IpAddr) -> usize
        ensures { result ≡ length (waiting ip.now (queue_of ip.now self.now.queues)) }
    {
        match home_of(&self.table, ip) {
            Some(row) => self.table.count(row, ip.ip),
            None => 0,
        }
    }

    /// What waits at `from` goes, in its order, to the end of the queue of `to`, and waits there. In the time of the
    /// length of the queue of `from`.
    pub fn move_all(&mut self, from: &IpAddr, to: &IpAddr)
        requires from { is_declared from.now self.old.queues ≡ true }
        requires to { is_declared to.now self.old.queues ≡ true }
        requires differ { same_ip from.now to.now ≡ false }
        ensures queues { self.new.queues ≡ moved_all from.now to.now self.old.queues }
        ensures spare { self.new.spare ≡ self.old.spare }
        ensures room { self.new.room ≡ self.old.room }
    {
        match home_of(&self.table, from) {
            Some(source) => match home_of(&self.table, to) {
                Some(target) => move_between(&mut self.table, source, target, from, to),
                None => unreachable!(),
            },
            None => unreachable!(),
        }
    }

    /// The queues of an instance and of those below it are gone, with their interaction points, and what waited in
    /// them is appended to `into`, queue by queue in the order of the list. In the time of what is dropped and of
    /// one look at each declared interaction point.
    pub fn drop_below(&mut self, path: &Path, into: &mut Vec<T>)
        requires { length into.old.items + length (items_below path.now self.old.queues) ≤ vec_capacity into.old }
        ensures queues { self.new.queues ≡ dropped_below path.now self.old.queues }
        ensures items { into.new.items ≡ into.old.items ++ items_below path.now self.old.queues }
        ensures spare { self.new.spare ≡ self.old.spare + length (items_below path.now self.old.queues) }
        ensures room { self.old.room ≤ self.new.room }
        ensures capacity { vec_capacity into.new ≡ vec_capacity into.old }
    {
        empty_below(&mut self.table, path, into);
        self.table.keep_outside(path);
    }
}

//! A list with a gap of spare room.
ghost use Rattle.std.specs.Prelude.{◌≡◌, ◌+◌, ◌-◌, ◌≤◌, ◌<◌, ◌^◌, [], ◌++◌, length, take, drop, IsOk, IfOk, OnOk, OnErr};
ghost use Rattle.gap_buffer.specs.Gapped.{whole_list};

use std::alloc::{AllocError, Global};
use std::marker::Model;

/// A list with a gap of spare room, next to which elements are put in and taken out: the gap buffer of text editors.
#[derive(Debug, Drop)]
pub struct GapBuffer<T> {
    // The elements in front of the gap, the gap, and the elements behind it. What stands in the gap is of no matter.
    items: Vec<T>,
    // Where the gap begins, and where it ends.
    start: usize,
    end: usize,
}

impl<T> Model for GapBuffer<T> {
    ghost use Rattle.std.specs.Prelude.{◌≤◌, ◌-◌, take, drop, length};
    ghost use Rattle.gap_buffer.specs.Gapped.{Gapped, gapped_code};

    ghost Value = { Gapped T };

    ghost coded = { gapped_code T.code };

    ghost view = { λ g. record { front = take g.start g.items.items; behind = drop g.end g.items.items; spare = g.end - g.start } };

    ghost invariant = { λ g. (g.start ≤ g.end) × (g.end ≤ length g.items.items) };
}

impl<T> GapBuffer<T> {
    /// No elements.
    pub fn new(alloc: Global) -> GapBuffer<T>
        ensures front { result.front ≡ [] }
        ensures behind { result.behind ≡ [] }
        ensures spare { result.spare ≡ 0 }
    {
        GapBuffer {
            items: Vec::new(alloc),
            start: 0,
            end: 0,
        }
    }

    /// The elements in front of the gap.
    pub fn front(&self) -> &[T]
        ensures value { result.now ≡ self.now.front }
    {
        &self.items[..self.start]
    }

    /// The elements behind the gap.
    pub fn behind(&self) -> &[T]
        ensures value { result.now ≡ self.now.behind }
    {
        &self.items[self.end..]
    }

    /// How many more elements the gap takes.
    pub fn spare(&self) -> usize
        ensures { result ≡ self.now.spare }
    {
        self.end - self.start
    }

    /// All its slots, those of the gap among them, for the bound that a slice's length has; what stands in the gap's is of no
    /// matter.
    pub fn slots(&self) -> &[T]
        ensures length { length result.now ≡ length (whole_list self.now) + self.now.spare }
        ensures front { take (length self.now.front) result.now ≡ self.now.front }
        ensures behind { drop (length self.now.front + self.now.spare) result.now ≡ self.now.behind }
    {
        &self.items
    }

    /// Where its memory comes from.
    pub fn allocator(&self) -> Global {
        *self.items.allocator()
    }
}

impl<T: Copy> GapBuffer<T> {
    /// Moves the gap to the place. It moves the elements in between, and no others.
    pub fn move_to(&mut self, place: usize)
        requires { place ≤ length (whole_list self.old) }
        ensures front { self.new.front ≡ take place (whole_list self.old) }
        ensures behind { self.new.behind ≡ drop place (whole_list self.old) }
        ensures spare { self.new.spare ≡ self.old.spare }
    {
        let start = self.start;
        if place < start {
            self.move_back(place);
        } else {
            self.move_on(place - start);
        }
    }

    // Moves the gap to a place in front of it.
    fn move_back(&mut self, place: usize)
        requires { place ≤ length self.old.front }
        ensures front { self.new.front ≡ take place self.old.front }
        ensures behind { self.new.behind ≡ drop place self.old.front ++ self.old.behind }
        ensures spare { self.new.spare ≡ self.old.spare }
    {
        let count = self.start - place;
        let end = self.end - count;
        self.items.copy_within(place..self.start, end);
        self.start = place;
        self.end = end;
    }

    // Moves the gap behind so many of the elements behind it.
    fn move_on(&mut self, count: usize)
        requires { count ≤ length self.old.behind }
        ensures front { self.new.front ≡ self.old.front ++ take count self.old.behind }
        ensures behind { self.new.behind ≡ drop count self.old.behind }
        ensures spare { self.new.spare ≡ self.old.spare }
    {
        let end = self.end + count;
        self.items.copy_within(self.end..end, self.start);
        self.start += count;
        self.end = end;
    }

    /// Puts these elements in, in front of the gap.
    pub fn put_front(&mut self, items: &[T])
        requires { length items.now ≤ self.old.spare }
        ensures front { self.new.front ≡ self.old.front ++ items.now }
        ensures behind { self.new.behind ≡ self.old.behind }
        ensures spare { self.new.spare + length items.now ≡ self.old.spare }
    {
        let start = self.start + items.len();
        self.items[self.start..start].copy_from_slice(items);
        self.start = start;
    }

    /// Puts these elements in, behind the gap.
    pub fn put_behind(&mut self, items: &[T])
        requires { length items.now ≤ self.old.spare }
        ensures front { self.new.front ≡ self.old.front }
        ensures behind { self.new.behind ≡ items.now ++ self.old.behind }
        ensures spare { self.new.spare + length items.now ≡ self.old.spare }
    {
        let end = self.end - items.len();
        self.items[end..self.end].copy_from_slice(items);
        self.end = end;
    }

    /// Takes so many elements out, from behind the gap.
    pub fn take_behind(&mut self, count: usize)
        requires { count ≤ length self.old.behind }
        ensures front { self.new.front ≡ self.old.front }
        ensures behind { self.new.behind ≡ drop count self.old.behind }
        ensures spare { self.new.spare ≡ self.old.spare + count }
    {
        self.end += count;
    }

    /// Takes so many elements out, from in front of the gap.
    pub fn take_front(&mut self, count: usize)
        requires { count ≤ length self.old.front }
        ensures front { self.new.front ≡ take (length self.old.front - count) self.old.front }
        ensures behind { self.new.behind ≡ self.old.behind }
        ensures spare { self.new.spare ≡ self.old.spare + count }
    {
        self.start -= count;
    }

    /// A copy, with its gap.
    pub fn try_clone(&self) -> Result<GapBuffer<T>, AllocError>
        ensures { IfOk result (λ copy. copy ≡ self.now) }
    {
        let items = Vec::from_slice(self.allocator(), &self.items)?;
        Ok(GapBuffer {
            items,
            start: self.start,
            end: self.end,
        })
    }

    /// Makes room for so many more elements; new slots are filled with this one. At `Err` it is as it was.
    pub fn reserve(&mut self, extra: usize, filler: T) -> Result<(), AllocError>
        ensures ok { OnOk result (extra ≤ self.new.spare) }
        ensures front { self.new.front ≡ self.old.front }
        ensures behind { self.new.behind ≡ self.old.behind }
        ensures spare { self.old.spare ≤ self.new.spare }
        ensures succeeds { extra ≤ self.old.spare → IsOk result }
        ensures err { OnErr result (self.new ≡ self.old) }
    {
        let spare = self.end - self.start;
        if extra <= spare {
            return Ok(());
        }
        let len = self.items.len();
        // As much again as there is, so that many small growths move few elements each.
        let longer = len
            .checked_add(extra)
            .and_then(|longer| longer.checked_add(len))
            .ok_or(AllocError)?;
        self.items.resize(longer, filler)?;
        let end = self.end + (longer - len);
        self.items.copy_within(self.end..len, end);
        self.end = end;
        Ok(())
    }
}

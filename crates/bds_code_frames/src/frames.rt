//! The calls of a thread, with the values of all of them in one list.
ghost use Rattle.std.specs.Prelude.{◌≡◌, ◌≢◌, ◌<◌, ◌≤◌, ◌+◌, [], ◌∷◌, ◌++◌, map, length, take, drop, slice_get, true};
ghost use Rattle.std.specs.Prelude.{false, IsSome, Some, None, IfOk, OnOk, OnErr};
ghost use Rattle.std.specs.List.{All};
ghost use Rattle.std.specs.Option.{option_to_list};
ghost use Rattle.bds_value.specs.declared.TheConstants.{MAX_COUNT};
ghost use Rattle.bds_value.specs.declared.value.Value.{Value};
ghost use Rattle.bds_value.specs.declared.value.Ty.TheVariants.{Void};
ghost use Rattle.bds_value.specs.Readers.{as_int};
ghost use Rattle.bds_value.specs.Value.{default_of};
ghost use Rattle.bds_code_frames.specs.Counts.{IsCounted};
ghost use Rattle.bds_code_frames.specs.Laid.{frame_at, begin_of, under, values_of, Fits, AreLaid};
ghost use Rattle.bds_code_frames.specs.Stack.{stack, place_of, slot_at, head_of, opened, moved, popped, pushed};
ghost use Rattle.bds_code_frames.specs.Stack.{swapped, slot_added, slots_added, entered, closed};

use crate::blanks::add_blanks;
use crate::head::Head;
use crate::newest_head::NewestHead;
use bds_value::{Items, MAX_COUNT, NoMemory, Shared, Ty, Value};
use std::alloc::Global;
use std::marker::Model;
use std::mem;

/// The frames of a thread, the oldest first.
#[derive(Debug, Drop)]
pub struct Frames {
    /// The slots and then the operands of each frame, the oldest frame first.
    values: Vec<Value>,
    /// The frames before the newest.
    below: Vec<Head>,
    /// It stands apart, since each instruction changes it.
    newest: NewestHead,
    /// The items of each list slot before anything is stored: a call takes no memory for them.
    no_items: Option<Shared<Items>>,
}

impl Model for Frames {
    ghost use Rattle.std.specs.Prelude.{List};
    ghost use Rattle.std.specs.Coded.{coded_list};
    ghost use Rattle.bds_code_frames.specs.declared.frame.Frame.{Frame};
    ghost use Rattle.bds_code_frames.specs.contracts.frame.Frame as frame;
    ghost use Rattle.bds_code_frames.specs.Laid.{frames_of, IsLaid};

    ghost Value = { List Frame };

    ghost coded = { coded_list frame.the_row.coded };

    ghost view = { λ f. frames_of f.values.items f.below.items f.newest };

    ghost invariant = { λ f. IsLaid f.values.items f.below.items f.newest };
}

/// Where a frame begins, and where others do if it isn't there.
fn begin(below: &[Head], i: usize, end: usize) -> usize
    ensures { result ≡ begin_of (drop i below.now) end }
{
    match below.get(i) {
        Some(head) => head.slots,
        None => end,
    }
}

/// The values up to the end of a frame, and its head.
fn frame_in<'a>(values: &'a [Value], below: &[Head], newest: &Head, i: usize) -> (&'a [Value], Head)
    requires there { i < length below.now + 1 }
    requires laid { AreLaid below.now newest.now.slots }
    requires newest { Fits newest.now (length values.now) }
    ensures frame { slice_get (under values.now below.now newest.now.slots
        ++ frame_at values.now newest.now ∷ []) i ≡ Some (frame_at result.0.now result.1) }
    ensures fits { Fits result.1 (length result.0.now) }
{
    match below.get(i) {
        Some(head) => {
            let end = begin(below, i + 1, newest.slots);
            (values.split_at(end).0, *head)
        }
        None => (values, *newest),
    }
}

/// Adds a value at the end of those that begin at a place, where 32 bits can count them. A refused
/// call drops the value and leaves the values as they were.
#[inline(always)]
fn add(values: &mut Vec<Value>, begin: usize, value: Value) -> Result<(), NoMemory>
    requires { begin ≤ length values.old.items }
    ensures ok { OnOk result ((values.new.items ≡ values.old.items ++ value ∷ [])
        × (length values.new.items ≤ begin + MAX_COUNT)) }
    ensures err { OnErr result (values.new.items ≡ values.old.items) }
{
    if ((values.len() - begin) as u64) >= MAX_COUNT {
        return Err(NoMemory);
    }
    // A `push` that fails hands the value back, and each call would have a place for that.
    match values.reserve(1) {
        Ok(()) => {
            values.push_reserved(value);
            Ok(())
        }
        Err(_) => Err(NoMemory),
    }
}

/// Puts a number in the place of one, and says whether one is there.
#[inline(always)]
fn put_number(place: &mut Value, n: i64) -> bool
    ensures done { result ≡ true → (place.new ≡ Value.Int n) × IsSome (as_int place.old) }
    ensures same { result ≡ false → (place.new ≡ place.old) × (as_int place.old ≡ None) }
{
    match place {
        Value::Int(number) => {
            *number = n;
            true
        }
        _ => false,
    }
}

/// Drops the values from a place on.
#[inline(always)]
fn cut(values: &mut Vec<Value>, begin: usize)
    requires { begin ≤ length values.old.items }
    ensures { values.new.items ≡ take begin values.old.items }
{
    for _ in begin..values.len() {
        match values.pop() {
            // Most values are numbers and truth values, which go without a call.
            Some(Value::Int(_)) | Some(Value::Bool(_)) => {}
            _value => {}
        }
    }
}

/// Puts a newest frame on those that are there. A refused call leaves them as they were.
fn put(below: &mut Vec<Head>, newest: &mut NewestHead, head: Head) -> Result<(), NoMemory>
    ensures ok { OnOk result ((newest.new ≡ Some head)
        × (below.new.items ≡ below.old.items ++ option_to_list newest.old)) }
    ensures err { OnErr result ((newest.new ≡ newest.old) × (below.new.items ≡ below.old.items)) }
{
    if newest.is_there() {
        below.push(newest.head())?;
    }
    *newest = NewestHead::some(head);
    Ok(())
}

/// The newest frame, where one is left.
#[inline(always)]
fn newest_of(head: Option<Head>) -> NewestHead
    ensures { result ≡ head }
{
    match head {
        Some(head) => NewestHead::some(head),
        None => NewestHead::none(),
    }
}

impl Frames {
    /// No frames.
    pub fn new(alloc: Global) -> Frames
        ensures { result ≡ [] }
    {
        Frames {
            values: Vec::new(alloc),
            below: Vec::new(alloc),
            newest: NewestHead::none(),
            no_items: None,
        }
    }

    /// The number of frames.
    pub fn count(&self) -> u32
        ensures { result ≡ length self.now }
    {
        if self.newest.is_there() {
            self.below.len() as u32 + 1
        } else {
            0
        }
    }

    /// 32 bits count the slots and the operands of each frame: a law, which does nothing.
    pub fn are_counted(&self)
        ensures { All IsCounted self.now }
    {
        let _newest = &self.newest;
    }

    fn frame(&self, i: u32) -> (&[Value], Head)
        requires { i < length self.now }
        ensures frame { slice_get self.now i ≡ Some (frame_at result.0.now result.1) }
        ensures fits { Fits result.1 (length result.0.now) }
    {
        let newest = self.newest.head();
        frame_in(&self.values, &self.below, &newest, i as usize)
    }

    /// Function and place of a frame.
    pub fn head(&self, i: u32) -> (u32, u32)
        requires { i < length self.now }
        ensures { slice_get (map head_of self.now) i ≡ Some result }
    {
        let head = self.frame(i).1;
        (head.function, head.place)
    }

    /// The parameters and locals of a frame.
    pub fn slots(&self, i: u32) -> &[Value]
        requires { i < length self.now }
        ensures { slice_get (map (λ f. f.slots) self.now) i ≡ Some result.now }
    {
        let (values, head) = self.frame(i);
        values.split_at(head.operands).0.split_at(head.slots).1
    }

    /// The operands of a frame, the last at the end.
    pub fn operands(&self, i: u32) -> &[Value]
        requires { i < length self.now }
        ensures { slice_get (map (λ f. f.operands) self.now) i ≡ Some result.now }
    {
        let (values, head) = self.frame(i);
        values.split_at(head.operands).1
    }

    /// The slots and then the operands of every frame, the oldest frame first.
    pub fn values(&self) -> &[Value]
        ensures { result.now ≡ values_of self.now }
    {
        self.values.as_slice()
    }

    /// Function and place of the newest frame.
    pub fn place(&self) -> (u32, u32)
        requires { IsSome (place_of (stack self.now)) }
        ensures { place_of (stack self.now) ≡ Some result }
    {
        let head = self.newest.head();
        (head.function, head.place)
    }

    /// The value in a slot of the newest frame.
    pub fn slot(&self, slot: u32) -> &Value
        requires { IsSome (slot_at slot (stack self.now)) }
        ensures { slot_at slot (stack self.now) ≡ Some result.now }
    {
        let head = self.newest.head();
        &self.values[head.slots + slot as usize]
    }

    /// Adds a newest frame without values. A refused call leaves the frames as they were.
    pub fn open(&mut self, alloc: Global, function: u32, place: u32) -> Result<(), NoMemory>
        requires { length self.old < MAX_COUNT }
        ensures ok { OnOk result (self.new ≡ self.old ++ opened function place ∷ []) }
        ensures err { OnErr result (self.new ≡ self.old) }
    {
        let end = self.values.len();
        let head = Head {
            function,
            place,
            slots: end,
            operands: end,
        };
        put(&mut self.below, &mut self.newest, head)?;
        Ok(())
    }

    /// Adds a newest frame at place 0 whose slots are the last operands of the frame before it, in
    /// their order; that frame loses them. A refused call leaves the frames as they were.
    pub fn enter(&mut self, alloc: Global, function: u32, count: u32) -> Result<(), NoMemory>
        requires room { length self.old < MAX_COUNT }
        requires enough { IsSome (entered function count (stack self.old)) }
        ensures ok { OnOk result (entered function count (stack self.old) ≡ Some (stack self.new)) }
        ensures err { OnErr result (self.new ≡ self.old) }
    {
        let end = self.values.len();
        let head = Head {
            function,
            place: 0,
            slots: end - count as usize,
            operands: end,
        };
        put(&mut self.below, &mut self.newest, head)?;
        Ok(())
    }

    /// Sets the place of the newest frame.
    pub fn set_place(&mut self, place: u32)
        requires { IsSome (moved place (stack self.old)) }
        ensures { moved place (stack self.old) ≡ Some (stack self.new) }
    {
        self.newest.set_place(place);
    }

    /// Takes the last operand of the newest frame.
    #[inline(always)]
    pub fn take_operand(&mut self) -> Value
        requires { IsSome (popped (stack self.old)) }
        ensures { popped (stack self.old) ≡ Some (result, stack self.new) }
    {
        match self.values.pop() {
            Some(value) => value,
            None => unreachable!(),
        }
    }

    /// Puts a value in a slot of the newest frame, and gives the old one.
    pub fn swap_slot(&mut self, slot: u32, value: Value) -> Value
        requires { IsSome (swapped slot value (stack self.old)) }
        ensures { swapped slot value (stack self.old) ≡ Some (result, stack self.new) }
    {
        let head = self.newest.head();
        mem::replace(&mut self.values[head.slots + slot as usize], value)
    }

    /// Puts a number in a slot of the newest frame that holds a number, and says whether it does.
    #[inline(always)]
    pub fn set_number(&mut self, slot: u32, n: i64) -> bool
        requires { IsSome (slot_at slot (stack self.old)) }
        ensures done { result ≡ true
            → (old : Value) × (swapped slot (Value.Int n) (stack self.old) ≡ Some (old, stack self.new))
            × IsSome (as_int old) }
        ensures same { result ≡ false → self.new ≡ self.old }
        ensures other { result ≡ false
            → (old : Value) × (slot_at slot (stack self.old) ≡ Some old) × (as_int old ≡ None) }
    {
        let head = self.newest.head();
        put_number(&mut self.values[head.slots + slot as usize], n)
    }

    /// Drops the newest frame with its values.
    #[inline(always)]
    pub fn close(&mut self)
        requires { IsSome (closed (stack self.old)) }
        ensures { closed (stack self.old) ≡ Some (stack self.new) }
    {
        let head = self.newest.head();
        cut(&mut self.values, head.slots);
        self.newest = newest_of(self.below.pop());
    }

    /// Adds a slot to the newest frame, which has no operands yet. A refused call drops the value
    /// and leaves the frames as they were.
    #[inline(always)]
    pub fn add_slot(&mut self, _: Global, value: Value) -> Result<(), NoMemory>
        requires { IsSome (slot_added value (stack self.old)) }
        ensures ok { OnOk result (slot_added value (stack self.old) ≡ Some (stack self.new)) }
        ensures err { OnErr result (self.new ≡ self.old) }
    {
        let head = self.newest.head();
        add(&mut self.values, head.slots, value)?;
        self.newest.add_slots(1);
        Ok(())
    }

    /// Adds slots with the values of types before anything is stored to the newest frame, which has no operands yet. A
    /// refused call leaves the frames as they were.
    #[inline(always)]
    pub fn add_defaults(&mut self, alloc: Global, types: &[Ty]) -> Result<(), NoMemory>
        requires values { All (λ ty. ty ≢ Void) types.now }
        requires alone { (v : Value) → IsSome (slot_added v (stack self.old)) }
        ensures ok { OnOk result (slots_added (map default_of types.now) (stack self.old) ≡ Some (stack self.new)) }
        ensures err { OnErr result (self.new ≡ self.old) }
    {
        let head = self.newest.head();
        add_blanks(
            alloc,
            &mut self.no_items,
            &mut self.values,
            head.slots,
            types,
        )?;
        self.newest.add_slots(types.len());
        Ok(())
    }

    /// Adds an operand to the newest frame. A refused call drops the value and leaves the frames as
    /// they were.
    #[inline(always)]
    pub fn add_operand(&mut self, _: Global, value: Value) -> Result<(), NoMemory>
        requires { IsSome (pushed value (stack self.old)) }
        ensures ok { OnOk result (pushed value (stack self.old) ≡ Some (stack self.new)) }
        ensures err { OnErr result (self.new ≡ self.old) }
    {
        let head = self.newest.head();
        add(&mut self.values, head.operands, value)?;
        Ok(())
    }
}

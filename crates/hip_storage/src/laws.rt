//! What each call of a storage does is the action of a run, if the storage is that of the run.

ghost use Rattle.std.specs.Prelude.{◌≡◌, ℕ, ◌%◌, ◌≤◌, ◌∷◌, true, false, cond, List, Option, Some};
ghost use Rattle.hip_types.specs.Bytes.{bytes_of, little_endian};
ghost use Rattle.hip_mem.specs.Memory.{bytes_at};
ghost use Rattle.hip_types.specs.Areas.{stack_start};
ghost use Rattle.hip_runs.specs.Actions.{Action, Allocates, Asserts, Assigns, Fences, Flushes, Persists, Returns, Stores, Traps, allocated, in_region, memory_of};
ghost use Rattle.hip_runs.specs.State.{Frame};
ghost use Rattle.hip_runs.specs.declared.event.Ending.TheVariants.{Trap};
ghost use Rattle.hip_runs.specs.declared.event.Event.TheVariants as events;
ghost use Rattle.hip_runs.specs.declared.event.Event.{Event};
ghost use Rattle.hip_runs.specs.declared.event.TrapKind.TheVariants as traps;
ghost use Rattle.hip_runs.specs.declared.event.TrapKind.{TrapKind};
ghost use Rattle.hip_storage.specs.Calls.{HasLoaded, HasPushed, HasStored, ShowsFlush, ShowsPersist};
ghost use Rattle.hip_storage.specs.Contents.{Contents, after_pop, block_trap, lies_in_region, range_trap};
ghost use Rattle.hip_storage.specs.Represented.{Access, Does, Stand, accessed_at, flushing_at, trap_at};

/// A load assigns the number of the bytes in the run's memory, modulo what the register's type requires. It is refused
/// exactly if the run traps, for the same cause.
pub fn loads_are_those_of_the_run()
    ensures done { (at : Stand) → (x : Access) → (value : ℕ) → (dest : Option (List ℕ)) → (m : ℕ)
        → HasLoaded at.contents x.addr x.size x.align value →
        Does at at.contents events.Quiet (accessed_at at x (Assigns dest
        (little_endian (bytes_at (memory_of at.program at.input at.point.world) x.addr x.size) % m)))
        (Assigns dest (value % m)) }
    ensures refused { (at : Stand) → (x : Access) → (kind : TrapKind) → (go : Action) → trap_at at x ≡ Some kind →
        Does at at.contents (events.End (Trap kind)) (accessed_at at x go) (Traps kind) }
{}

/// A store is that of the run. It is refused exactly if the run traps, for the same cause.
pub fn stores_are_those_of_the_run()
    ensures done { (at : Stand) → (x : Access) → (new : Contents) → (event : Event) → (value : ℕ)
        → HasStored at.contents new event x.addr x.size x.align value →
        Does at new event (accessed_at at x (Stores x.addr (bytes_of x.size value)))
        (Stores x.addr (bytes_of x.size value)) }
    ensures refused { (at : Stand) → (x : Access) → (kind : TrapKind) → (value : ℕ) → trap_at at x ≡ Some kind →
        Does at at.contents (events.End (Trap kind)) (accessed_at at x (Stores x.addr (bytes_of x.size value)))
        (Traps kind) }
{}

/// A block on the stack is that of the run's `alloca`, and is refused exactly if the run traps. A return sets the
/// stack's mark back to what it was at the call.
pub fn blocks_are_those_of_the_run()
    ensures done { (at : Stand) → (new : Contents) → (block size align : ℕ) → (dest : List ℕ)
        → HasPushed at.contents new block size align →
        Does at new events.Quiet (allocated at.point.world dest size align) (Allocates dest block size) }
    ensures refused { (at : Stand) → (size align : ℕ) → (dest : List ℕ) → (kind : TrapKind)
        → block_trap at.contents size align ≡ Some kind →
        Does at at.contents (events.End (Trap kind)) (allocated at.point.world dest size align) (Traps kind) }
    ensures returns { (at : Stand) → (value : ℕ) → (g : Frame) → (fs : List Frame) → at.point.frames ≡ g ∷ fs
        → stack_start ≤ at.point.frame.mark → at.point.frame.mark ≤ at.point.world.mark →
        Does at (after_pop at.point.frame.mark at.contents) events.Quiet (Returns value) (Returns value) }
{}

/// A flush of a range, with or without a fence after it, is that of the run: the event and the trap. It changes no
/// byte. A flush of the line of an address is a flush of the range of its byte.
pub fn flushes_are_those_of_the_run()
    ensures flushed { (at : Stand) → (event : Event) → (addr size : ℕ) → ShowsFlush at.contents event addr size →
        Does at at.contents event (flushing_at at addr size (Flushes addr size)) (Flushes addr size) }
    ensures persisted { (at : Stand) → (event : Event) → (addr size : ℕ) → ShowsPersist at.contents event addr size →
        Does at at.contents event (flushing_at at addr size (Persists addr size)) (Persists addr size) }
    ensures refused { (at : Stand) → (addr size : ℕ) → (kind : TrapKind) → (go : Action)
        → range_trap at.contents addr size ≡ Some kind →
        Does at at.contents (events.End (Trap kind)) (flushing_at at addr size go) (Traps kind) }
    ensures fenced { (at : Stand) → Does at at.contents events.Fence Fences Fences }
{}

/// A range is checked in the run if it lies in the region; else the run traps.
pub fn asserts_are_those_of_the_run()
    ensures done { (at : Stand) → (addr size : ℕ) → lies_in_region at.contents addr size ≡ true →
        Does at at.contents (events.Assert addr size)
        (cond (in_region at.input addr size) (Asserts addr size) (Traps traps.Address)) (Asserts addr size) }
    ensures refused { (at : Stand) → (addr size : ℕ) → lies_in_region at.contents addr size ≡ false →
        Does at at.contents (events.End (Trap traps.Address))
        (cond (in_region at.input addr size) (Asserts addr size) (Traps traps.Address)) (Traps traps.Address) }
{}

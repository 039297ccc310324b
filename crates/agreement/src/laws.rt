//! Laws of the agreement, each the contract of a function that does nothing.
ghost use Rattle.std.specs.Prelude.{◌≡◌, ◌≢◌, ◌<◌, ◌≤◌, ◌++◌, ◌∷◌, [], true, false, Option, Some, None, List, ℕ, suc, length, take, drop, slice_get, slice_set};
ghost use Rattle.ot_text.specs.Change.{Change, base};
ghost use Rattle.ot_text.specs.Marked.{Marked};
ghost use Rattle.ot_transform.specs.Chain.{through};
ghost use Rattle.troop_entry.specs.Entries.{seen_of};
ghost use Rattle.troop_entry.specs.Kinds.{is_join};
ghost use Rattle.troop_entry.specs.declared.call.Call.{Call};
ghost use Rattle.troop_entry.specs.declared.call.Lang.{Lang};
ghost use Rattle.troop_entry.specs.declared.entry.Entry.{Entry};
ghost use Rattle.troop_entry.specs.declared.reply.Reply.TheVariants.{Placed, Kept};
ghost use Rattle.troop_entry.specs.declared.row.Row.{Row};
ghost use Rattle.log_model.specs.Answers.{answer, author, log_after};
ghost use Rattle.log_model.specs.Legal.{IsLegal};
ghost use Rattle.log_model.specs.Log.{doc, entries, ops, call_under};
ghost use Rattle.client_state.specs.Pending.{is_awaiting, outstanding};
ghost use Rattle.stage_state.specs.Machine.{Machine, machine_from, taken_count, held_text, after_acts, next_of, sent_pairs, CanAct, IsPlayed};
ghost use Rattle.stage_state.specs.Staged.{Staged, machine, with_act, new_stage, stage_at, IsStagePlayed};
ghost use Rattle.stage_state.specs.declared.act.Act.{Act};
ghost use Rattle.stage_state.specs.declared.act.Next.{Next};
ghost use Rattle.agreement.specs.Agreement.{Agrees, is_edit_by, is_own_join, pairs_by, lane_pairs, lane_call, waiting_calls, edits_among, positions_ahead, op_at};
ghost use Rattle.agreement.specs.Aligned.{IsAligned};
ghost use Rattle.agreement.specs.Stages.{StagesAgree, is_local};

/// The law of whole runs: placed acts whose takes are the log's entries from the start on, and whose sent calls are the performer's
/// rows behind its join, number and call, or all but the last are, which is then in the lane, lead to a machine that agrees with the
/// log. In which order the rows and the acts came is not asked.
pub fn run_law()
    ensures { (log : List Row) (own joined start : ℕ) (text : Marked) (acts : List Act) (lane : Option (ℕ × Call))
        → let m = after_acts acts (machine_from own joined start text) in
        IsLegal log → IsPlayed (machine_from own joined start text) acts → is_own_join own (slice_get log joined) ≡ true → start ≤ suc joined → text ≡ doc (take start log)
        → m.entries ≡ drop start (take (taken_count m) (entries log)) → pairs_by own (drop (suc joined) log) ++ lane_pairs lane ≡ sent_pairs m
        → Agrees log m lane }
{}

/// The log places the call in the lane, and has no row under its number.
pub fn lane_law()
    ensures placed { (log : List Row) (m : Machine) (num : ℕ) (call : Call) → IsLegal log → Agrees log m (Some (num, call))
        → answer log m.own num call ≡ Placed (length log) m.own }
    ensures fresh { (log : List Row) (m : Machine) (num : ℕ) (call : Call) → IsLegal log → Agrees log m (Some (num, call))
        → call_under log m.own num ≡ None }
{}

/// The log's next entry can be taken, unless the performer is gone.
pub fn take_law()
    ensures { (log : List Row) (m : Machine) (lane : Option (ℕ × Call)) (e : Entry) → IsLegal log → Agrees log m lane → m.gone ≡ false
        → slice_get (entries log) (taken_count m) ≡ Some e → CanAct m (Act.Take e) }
{}

/// Whoever has taken all entries and awaits nothing holds the log's document, with its marks.
pub fn drained_law()
    ensures { (log : List Row) (m : Machine) (lane : Option (ℕ × Call)) → IsLegal log → Agrees log m lane → taken_count m ≡ length log
        → outstanding m.pending ≡ None → held_text m ≡ doc log }
{}

/// Where the outstanding operation is, by what is to be seen: an edit waits, which it is, moved through what was taken since; or it is
/// there and none waits, so that just one row which isn't taken is the performer's edit, and has it moved on; or it isn't there,
/// and no edit waits or is to be taken.
pub fn outstanding_law()
    ensures unserved { (log : List Row) (m : Machine) (lane : Option (ℕ × Call)) (seen : ℕ) (op : Change) (es : List (ℕ × Change)) → Agrees log m lane
        → edits_among (waiting_calls (lane_call lane) m) ≡ (seen, op) ∷ es
        → (es ≡ []) × (base op ≡ length (doc (take seen log))) × (outstanding m.pending ≡ Some (through op (ops (drop seen (take (taken_count m) log)))))
        × (positions_ahead log m.own (taken_count m) ≡ []) }
    ensures served { (log : List Row) (m : Machine) (lane : Option (ℕ × Call)) (u : Change) → Agrees log m lane → outstanding m.pending ≡ Some u
        → edits_among (waiting_calls (lane_call lane) m) ≡ []
        → (s : ℕ) × (row : Row) × (positions_ahead log m.own (taken_count m) ≡ s ∷ []) × (op_at log s ≡ Some (through u (ops (drop (taken_count m) (take s log)))))
        × (slice_get log s ≡ Some row) × (is_edit_by m.own row ≡ true) × (taken_count m ≤ s) }
    ensures none { (log : List Row) (m : Machine) (lane : Option (ℕ × Call)) → Agrees log m lane → outstanding m.pending ≡ None
        → (edits_among (waiting_calls (lane_call lane) m) ≡ []) × (positions_ahead log m.own (taken_count m) ≡ []) }
{}

/// The calls that wait and the rows that aren't taken, one by one: at most one of those calls is an edit, and at most one of those rows
/// is the performer's edit, and never both, and then the performer awaits an operation; a call has seen no less than one in front of it, and
/// none more than was taken; and who has sent its leave sends nothing more.
pub fn waiting_law()
    ensures one_waits { (log : List Row) (m : Machine) (lane : Option (ℕ × Call)) (i j s r : ℕ) (a b : Change) → Agrees log m lane
        → slice_get (waiting_calls (lane_call lane) m) i ≡ Some (Call.Edit s a) → slice_get (waiting_calls (lane_call lane) m) j ≡ Some (Call.Edit r b) → i ≡ j }
    ensures one_ahead { (log : List Row) (m : Machine) (lane : Option (ℕ × Call)) (i j : ℕ) (row other : Row) → Agrees log m lane → taken_count m ≤ i → taken_count m ≤ j
        → slice_get log i ≡ Some row → slice_get log j ≡ Some other → is_edit_by m.own row ≡ true → is_edit_by m.own other ≡ true → i ≡ j }
    ensures not_both { (log : List Row) (m : Machine) (lane : Option (ℕ × Call)) (i j s : ℕ) (a : Change) (row : Row) → Agrees log m lane
        → slice_get (waiting_calls (lane_call lane) m) i ≡ Some (Call.Edit s a) → taken_count m ≤ j → slice_get log j ≡ Some row → is_edit_by m.own row ≡ false }
    ensures call_awaited { (log : List Row) (m : Machine) (lane : Option (ℕ × Call)) (i s : ℕ) (a : Change) → Agrees log m lane
        → slice_get (waiting_calls (lane_call lane) m) i ≡ Some (Call.Edit s a) → is_awaiting m.pending ≡ true }
    ensures row_awaited { (log : List Row) (m : Machine) (lane : Option (ℕ × Call)) (j : ℕ) (row : Row) → Agrees log m lane → taken_count m ≤ j
        → slice_get log j ≡ Some row → is_edit_by m.own row ≡ true → is_awaiting m.pending ≡ true }
    ensures rises { (log : List Row) (m : Machine) (lane : Option (ℕ × Call)) (i j : ℕ) (c d : Call) → Agrees log m lane → i ≤ j
        → slice_get (waiting_calls (lane_call lane) m) i ≡ Some c → slice_get (waiting_calls (lane_call lane) m) j ≡ Some d
        → (seen_of c 0 ≤ seen_of d 0) × (seen_of d 0 ≤ taken_count m) }
    ensures leave { (log : List Row) (m : Machine) (lane : Option (ℕ × Call)) → Agrees log m lane → m.leave_sent ≡ true → next_of m ≡ Next.Done }
{}

/// A stage that is aligned with a legal log agrees with it; where its next call goes to the log, the log places it, and the stage is
/// aligned with the log then. In between, from when the call is sent until the log serves it, the call is in the lane; and with a call
/// in the lane or without, the stage stays aligned by an act by which nothing is taken and nothing goes out, by the next entry, and by
/// whatever is asked as somebody else.
pub fn aligned_law()
    ensures agrees { (log : List Row) (s : Staged) (lane : Option (ℕ × Call)) → IsLegal log → IsStagePlayed s → IsAligned log s lane
        → Agrees log (machine s) lane }
    ensures serve { (log : List Row) (s : Staged) (acts_seat seat num : ℕ) (call : Call) → IsLegal log → IsStagePlayed s → IsAligned log s None
        → next_of (machine s) ≡ Next.Send num call
        → (answer log s.own num call ≡ Placed (length log) s.own) × (is_join call ≡ false) × IsAligned (log_after log seat s.own num call) (with_act acts_seat Act.Next s) None }
    ensures sent { (log : List Row) (s : Staged) (seat num : ℕ) (call : Call) → IsAligned log s None → next_of (machine s) ≡ Next.Send num call
        → IsAligned log (with_act seat Act.Next s) (Some (num, call)) }
    ensures served { (log : List Row) (s : Staged) (seat num : ℕ) (call : Call) → IsLegal log → IsStagePlayed s → IsAligned log s (Some (num, call))
        → IsAligned (log_after log seat s.own num call) s None }
    ensures local { (log : List Row) (s : Staged) (lane : Option (ℕ × Call)) (seat : ℕ) (act : Act) → is_local act ≡ true → IsAligned log s lane
        → IsAligned log (with_act seat act s) lane }
    ensures take { (log : List Row) (s : Staged) (lane : Option (ℕ × Call)) (seat : ℕ) (e : Entry) → IsAligned log s lane → slice_get (entries log) (taken_count (machine s)) ≡ Some e
        → IsAligned log (with_act seat (Act.Take e) s) lane }
    ensures guest { (log : List Row) (s : Staged) (lane : Option (ℕ × Call)) (seat who num : ℕ) (call : Call) → IsAligned log s lane → author log who call ≢ s.own
        → IsAligned (log_after log seat who num call) s lane }
{}

/// All stages over a log go on to agree with it: after an act by which nothing is taken and nothing goes out; after the next entry, which
/// can be taken; after a stage's next call, which the log places; after whatever is asked as a performer that has no stage; and after
/// a join, with or without a stage for it, which starts at the empty log or behind the join. A row that a stage's performer has behind its
/// join is kept when its call is asked again.
pub fn stages_law()
    ensures agrees { (log : List Row) (stages : List Staged) (i : ℕ) (s : Staged) → StagesAgree log stages → slice_get stages i ≡ Some s → Agrees log (machine s) None }
    ensures local { (log : List Row) (stages : List Staged) (i seat : ℕ) (s : Staged) (act : Act) → StagesAgree log stages → slice_get stages i ≡ Some s → is_local act ≡ true
        → CanAct (machine s) act → StagesAgree log (slice_set stages i (with_act seat act s)) }
    ensures take { (log : List Row) (stages : List Staged) (i seat : ℕ) (s : Staged) (e : Entry) → StagesAgree log stages → slice_get stages i ≡ Some s → (machine s).gone ≡ false
        → slice_get (entries log) (taken_count (machine s)) ≡ Some e
        → CanAct (machine s) (Act.Take e) × StagesAgree log (slice_set stages i (with_act seat (Act.Take e) s)) }
    ensures serve { (log : List Row) (stages : List Staged) (i acts_seat seat num : ℕ) (s : Staged) (call : Call) → StagesAgree log stages → slice_get stages i ≡ Some s
        → next_of (machine s) ≡ Next.Send num call
        → (answer log s.own num call ≡ Placed (length log) s.own) × StagesAgree (log_after log seat s.own num call) (slice_set stages i (with_act acts_seat Act.Next s)) }
    ensures guest { (log : List Row) (stages : List Staged) (seat who num : ℕ) (call : Call) → StagesAgree log stages
        → ((i : ℕ) (s : Staged) → slice_get stages i ≡ Some s → author log who call ≢ s.own) → StagesAgree (log_after log seat who num call) stages }
    ensures join { (log : List Row) (stages : List Staged) (seat who num : ℕ) (name : List ℕ) (lang : Lang) → StagesAgree log stages
        → StagesAgree (log_after log seat who num (Call.Join name lang)) stages }
    ensures new { (log : List Row) (stages : List Staged) (seat who w num : ℕ) (name : List ℕ) (lang : Lang) → StagesAgree log stages
        → answer log w num (Call.Join name lang) ≡ Placed (length log) who
        → StagesAgree (log_after log seat w num (Call.Join name lang)) (stages ++ new_stage who (length log) ∷ []) }
    ensures snapshot { (log : List Row) (stages : List Staged) (seat who w num : ℕ) (name : List ℕ) (lang : Lang) → StagesAgree log stages
        → answer log w num (Call.Join name lang) ≡ Placed (length log) who
        → StagesAgree (log_after log seat w num (Call.Join name lang)) (stages ++ stage_at who (length log) (doc (log_after log seat w num (Call.Join name lang))) ∷ []) }
    ensures again { (log : List Row) (stages : List Staged) (i at seat : ℕ) (s : Staged) (row : Row) → StagesAgree log stages → slice_get stages i ≡ Some s → s.joined < at
        → slice_get log at ≡ Some row → row.who ≡ s.own
        → (answer log s.own row.num row.call ≡ Kept at s.own) × (log_after log seat s.own row.num row.call ≡ log) }
{}

ghost use Rattle.std.specs.Prelude.{◌≡◌, ℕ, List, true, None};
ghost use Rattle.dwc2_regs.specs.declared.access.Access.{Access};
ghost use Rattle.register_text.specs.declared.access.Side.{Side};
ghost use Rattle.register_text.specs.Access.{access_text, IsAccess};
ghost use Rattle.line_rules.specs.declared.rules.Mode.{Mode};
ghost use Rattle.line_rules.specs.declared.rules.Mode.TheVariants as mode;
ghost use Rattle.line_rules.specs.declared.rules.Place.{Place};
ghost use Rattle.line_rules.specs.declared.rules.Place.TheVariants as place;
ghost use Rattle.line_rules.specs.Rules.{lowest};
ghost use Rattle.usb_text.specs.declared.line.Line.{Line};
ghost use Rattle.usb_text.specs.Scheduled.{Scheduled};
ghost use Rattle.device_line.specs.declared.line.Answer.{Answer};
ghost use Rattle.device_line.specs.declared.call.DevCall.{DevCall};
ghost use Rattle.call_text.specs.Call.{call_text, IsCall};
ghost use Rattle.usb_text.specs.declared.head.HeadLine.{HeadLine};
ghost use Rattle.usb_text.specs.Line.{line_text, IsLine, schedule_text_of, IsScheduled, answer_text};
ghost use Rattle.usb_text.specs.Head.{head_text, IsHead};
ghost use Rattle.usb_text.specs.Plain.{is_plain};
ghost use Rattle.usb_text.specs.Lines.{StandsIn};

/// A law: each line has one text, and each text is that of one line at most, wherever it stands; so it is of each call. No text of
/// a line has a newline, and none of an answer, whatever its bytes and numbers are.
#[tactic(auto, using(crate::proofs::Lines::same_line, crate::proofs::Lines::line_is_plain, crate::proofs::Spelling::same_schedule, crate::proofs::Spelling::same_call, crate::proofs::Spelling::same_head, crate::proofs::Plain::schedule_is_plain, crate::proofs::Plain::head_is_plain, crate::proofs::Replies::answer_is_plain))]
pub fn one_spelling()
    ensures line { (a b : Line) → IsLine a → IsLine b → line_text a ≡ line_text b → a ≡ b }
    ensures schedule { (a b : Scheduled) → IsScheduled a → IsScheduled b → schedule_text_of a ≡ schedule_text_of b → a ≡ b }
    ensures call { (a b : DevCall) → IsCall a → IsCall b → call_text a ≡ call_text b → a ≡ b }
    ensures head { (a b : HeadLine) → IsHead a → IsHead b → head_text a ≡ head_text b → a ≡ b }
    ensures plain_line { (a : Line) → IsLine a → is_plain (line_text a) ≡ true }
    ensures plain_schedule { (a : Scheduled) → IsScheduled a → is_plain (schedule_text_of a) ≡ true }
    ensures plain_head { (a : HeadLine) → IsHead a → is_plain (head_text a) ≡ true }
    ensures plain_answer { (a : Answer) → is_plain (answer_text a) ≡ true }
{}

/// A law: the texts of lines are exactly what breaks no rule.
#[tactic(auto, using(crate::proofs::Lines::line_keeps, crate::proofs::Kept::text_keeps, crate::proofs::Kept::head_text_keeps))]
pub fn texts_keep_rules()
    ensures line { (m : Mode) (p : Place) (a : Line) → IsLine a → StandsIn m p a → lowest m p (line_text a) ≡ None }
    ensures schedule { (a : Scheduled) → IsScheduled a → lowest mode.Device place.Schedule (schedule_text_of a) ≡ None }
    ensures head { (a : HeadLine) → IsHead a → lowest mode.Device place.Head (head_text a) ≡ None }
    ensures in_place { (m : Mode) (p : Place) (bytes : List ℕ) → lowest m p bytes ≡ None → (a : Line) × (bytes ≡ line_text a) × IsLine a × StandsIn m p a }
    ensures in_schedule { (bytes : List ℕ) → lowest mode.Device place.Schedule bytes ≡ None → (a : Scheduled) × (bytes ≡ schedule_text_of a) × IsScheduled a }
    ensures in_head { (bytes : List ℕ) → lowest mode.Device place.Head bytes ≡ None → (a : HeadLine) × (bytes ≡ head_text a) × IsHead a }
{}

/// A law: the text of a register line has no newline, is that of one access on one side, and is that of no answer.
#[tactic(auto, using(crate::proofs::Accesses::access_is_no_answer))]
pub fn register_lines()
    ensures told { (a b : Access) (s t : Side) → IsAccess a → IsAccess b → access_text a s ≡ access_text b t → (a ≡ b) × (s ≡ t) }
    ensures plain { (a : Access) (s : Side) → is_plain (access_text a s) ≡ true }
    ensures no_answer { (a : Access) (s : Side) (b : Answer) → access_text a s ≡ answer_text b → ⊥ }
{}

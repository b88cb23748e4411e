// What holds of every map.
ghost use Rattle.std.specs.Prelude.{◌≡◌, ◌<◌, ◌^◌, List, ℕ, sum_by};
ghost use Rattle.bit_field.specs.Shapes.{IsShape};
ghost use Rattle.ace_rules.specs.Notes.{Story};
ghost use Rattle.class_map.specs.Checks.{IsAccepted, IsFirstFault};
ghost use Rattle.class_map.specs.Faults.{FileLine, lines_of, start};
ghost use Rattle.class_map.specs.Lines.{pairs_of};
ghost use Rattle.class_map.specs.Maps.{AreAll};
ghost use Rattle.class_map.specs.Written.{text_of};
ghost use Rattle.class_map.specs.declared.map_line.MapLine.{MapLine};

/// Changes nothing; says that the map of a run is accepted for the run, with all of its pairs, and that what is accepted isn't refused.
pub fn map_law()
    ensures own { (story : Story) (lines : List MapLine) → IsShape story.r.shape → story.r.cycles < 2 ^ 32
        → story.r.instructions < 2 ^ 32 → AreAll story lines
        → IsAccepted story (lines_of (text_of story lines)) (sum_by pairs_of lines) }
    ensures one { (story : Story) (lines : List FileLine) (pairs number cause : ℕ) → IsAccepted story lines pairs
        → IsFirstFault story start lines number cause → ⊥ }
{}

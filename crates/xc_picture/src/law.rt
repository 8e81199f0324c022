ghost use Rattle.std.specs.Prelude.{◌≡◌, ◌<◌, ◌≤◌, ℕ, List, true, length, Some, None};
ghost use Rattle.std.specs.List.{list_all};
ghost use Rattle.xc_lines.specs.Ranges.{AreBytes};
ghost use Rattle.xc_lines.specs.declared.heads.Head.{Head};
ghost use Rattle.xc_sheet.specs.declared.lines.Line.{Line};
ghost use Rattle.std.specs.FinMap as map;
ghost use Rattle.xc_picture.specs.Arrows.{IsSpotAmong, rival_spot, spots_with};
ghost use Rattle.xc_picture.specs.declared.scene.Bar.{Bar};
ghost use Rattle.xc_picture.specs.declared.scene.Spot.{Spot};
ghost use Rattle.xc_picture.specs.Escapes.{is_safe, is_svg_escape, svg_escaped_byte, svg_escaped};
ghost use Rattle.xc_picture.specs.Scenes.{StandInOrder, bar_of, bars_from};

/// Bytes in a picture can't end the text or the attribute that they stand in, nor begin a mark: each gives one plain byte or a
/// reference.
pub fn what_is_escaped_is_safe()
    ensures safe { (bytes : List ℕ) → AreBytes bytes → list_all is_safe (svg_escaped bytes) ≡ true }
    ensures each { (b : ℕ) → b < 256 → is_svg_escape (svg_escaped_byte b) ≡ true }
{}

/// An arrow to a transaction ends at a bar that has this transaction's number; and where there is such a bar, there is an arrow.
pub fn an_arrow_ends_at_its_rival()
    ensures found { (bars : List Bar) (tx : ℕ) (spot : Spot) → rival_spot (spots_with map.empty bars) (Some tx) ≡ Some spot
        → IsSpotAmong tx spot bars }
    ensures missed { (bars : List Bar) (tx : ℕ) (spot : Spot) → rival_spot (spots_with map.empty bars) (Some tx) ≡ None
        → IsSpotAmong tx spot bars → ⊥ }
{}

/// There are at most 2,000 bars, in the order of the entries; none begins behind its end, and one that began before its end begins
/// there.
pub fn bars_stand_in_order()
    ensures order { (lines : List Line) → StandInOrder 1 (bars_from 1 lines) }
    ensures few { (lines : List Line) → length (bars_from 1 lines) ≤ 2000 }
    ensures begins { (number : ℕ) (head : Head) (lines : List Line) → head.began ≤ number → (bar_of number head lines).from ≡ head.began }
{}

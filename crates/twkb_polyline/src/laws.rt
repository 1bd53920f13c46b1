//! Laws of polylines, each stated as the contract of an empty function.
ghost use Rattle.std.specs.Prelude.{◌≡◌, ℕ, ◌-◌, ◌≤◌, ◌↔◌, ◌⊎◌, pos, negsuc, List, [], ◌∷◌, ◌++◌, length, codes};
ghost use Rattle.std.specs.List.{AllByRecursion};
ghost use Rattle.twkb_num.specs.Alphabet.{five_unit};
ghost use Rattle.twkb_num.specs.Answer.{IsAbove};
ghost use Rattle.twkb_points.specs.declared.point.TheConstants.{COORDINATE_BOUND};
ghost use Rattle.twkb_points.specs.Point.{Point, point_at};
ghost use Rattle.twkb_polyline.specs.Polyline.{number_text, polyline, DecodesTo};
ghost use Rattle.twkb_polyline.specs.Fault.{IsTextFault, GoesOn, EndsIn};
ghost use Rattle.twkb_polyline.specs.declared.fault.PolyReason.{PolyReason};

/// Distinct lists of points have distinct polylines.
pub fn distinct_lists()
    ensures { (ps qs : List Point) → polyline ps ≡ polyline qs → ps ≡ qs }
{}

/// With the same `max`, a text with a fault is no polyline of at most `max` points in range.
pub fn no_polyline()
    ensures { (text : List ℕ) (max offset : ℕ) (reason : PolyReason) (ps : List Point) →
        IsTextFault text max offset reason → DecodesTo text max ps → ⊥ }
{}

/// With the same `max`, a text has at most one fault: one offset and one reason.
pub fn one_fault()
    ensures { (text : List ℕ) (max o p : ℕ) (r s : PolyReason) →
        IsTextFault text max o r → IsTextFault text max p s → (o ≡ p) × (r ≡ s) }
{}

/// With the same `max`, each text is a polyline of at most `max` points in range, or has a fault.
pub fn polyline_or_fault()
    ensures { (text : List ℕ) (max : ℕ) → ((ps : List Point) × DecodesTo text max ps) ⊎
        ((offset : ℕ) × (reason : PolyReason) × IsTextFault text max offset reason) }
{}

/// A thirteenth character that ends a number has a group of 16 or more exactly if the number has
/// more than 64 bits.
pub fn too_long_numbers()
    ensures { (us : List ℕ) (c group : ℕ) → AllByRecursion GoesOn us → length us ≡ 12 → EndsIn c group →
        ((16 ≤ group) ↔ IsAbove five_unit 32 (us ++ c ∷ [])) }
{}

/// Checks by computation that the definition of polylines gives the texts printed on the format's
/// page, and the text that the format's steps give by hand for two points, at both ends of the
/// range of x.
pub fn samples()
    ensures number { number_text (negsuc 17998320) ≡ codes "`~oia@" }
    ensures example { polyline (point_at (negsuc 12019999) (pos 3850000) ∷ point_at (negsuc 12094999) (pos 4070000)
        ∷ point_at (negsuc 12645299) (pos 4325200) ∷ [])
        ≡ codes "_p~iF~ps|U_ulLnnqC_mqNvxq`@" }
    ensures ends { polyline (point_at (pos (COORDINATE_BOUND - 1)) (pos 0)
        ∷ point_at (negsuc (COORDINATE_BOUND - 1)) (pos 0) ∷ [])
        ≡ codes "?}~~~~~~~~~~~F?|~~~~~~~~~~~N" }
{}

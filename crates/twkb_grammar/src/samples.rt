//! Samples of the definitions, checked by computation. The vectors are in docs/FORMATS.md.
ghost use Rattle.std.specs.Prelude.{◌≡◌, [], ◌∷◌, take};
ghost use Rattle.std.specs.List.{AllByRecursion};
ghost use Rattle.twkb_grammar.specs.Items.{Blob, Stream};
ghost use Rattle.twkb_grammar.specs.Written.{canonical_blob};
ghost use Rattle.twkb_grammar.specs.Fault.{FirstFault, StreamFault, Truncated, BadType};
ghost use Rattle.twkb_grammar.specs.Fault.{ExtraDimensions, BadVarint, TooDeep, TooManyNodes};
ghost use Rattle.twkb_grammar.specs.Fault.{TooManyPoints, CoordinateRange, SizeMismatch};
ghost use Rattle.twkb_grammar.specs.Samples.{standard, nest_eight, no_nest, two_nodes};
ghost use Rattle.twkb_grammar.specs.Samples.{one_point_only, no_points, one_point, three_points};
ghost use Rattle.twkb_grammar.specs.Samples.{two_rings, named_points, named_members, widest};
ghost use Rattle.twkb_grammar.specs.Samples.{short_line, empty_point, empty_line, two_precisions};
ghost use Rattle.twkb_grammar.specs.Samples.{empty_part, named_areas, least_precision};
ghost use Rattle.twkb_grammar.specs.Samples.{greatest_precision, two_lines, two_places};
ghost use Rattle.twkb_grammar.specs.Samples.{two_members, nine_deep, three_points_blob};
ghost use Rattle.twkb_grammar.specs.Samples.{widest_blob, nine_deep_blob, named_members_blob};
ghost use Rattle.twkb_grammar.specs.Samples.{bare_collection, in_collections};
ghost use Rattle.twkb_grammar.specs.declared.style.Style.TheVariants.{Full, Plain};

/// The canonical blobs of some sample geometries in full style, byte by byte.
#[tactic(auto, unfolding(twkb_num::specs::Spelling::digits, twkb_num::specs::Spelling::digits_within, twkb_points::specs::Extent::joined))]
pub fn full()
    ensures one_point { canonical_blob Full one_point ≡ 0x01 ∷ 0x02 ∷ 0x02 ∷ 0x04 ∷ 0x02 ∷ [] }
    ensures three_points { canonical_blob Full three_points ≡ three_points_blob }
    ensures two_rings { canonical_blob Full two_rings ≡ 0x03 ∷ 0x03 ∷ 0x13 ∷ 0x00 ∷ 0x08 ∷ 0x00
        ∷ 0x08 ∷ 0x02 ∷ 0x03 ∷ 0x00 ∷ 0x00 ∷ 0x08 ∷ 0x00 ∷ 0x07 ∷ 0x08 ∷ 0x03 ∷ 0x02 ∷ 0x05 ∷ 0x02
        ∷ 0x00 ∷ 0x01 ∷ 0x02 ∷ [] }
    ensures named_points { canonical_blob Full named_points ≡ 0x04 ∷ 0x07 ∷ 0x0B ∷ 0x00 ∷ 0x02
        ∷ 0x00 ∷ 0x02 ∷ 0x02 ∷ 0x02 ∷ 0x04 ∷ 0x00 ∷ 0x00 ∷ 0x02 ∷ 0x02 ∷ [] }
    ensures named_members { canonical_blob Full named_members ≡ named_members_blob }
    ensures widest { canonical_blob Full widest ≡ widest_blob }
    ensures short_line { canonical_blob Full short_line ≡ 0x02 ∷ 0x03 ∷ 0x09 ∷ 0x02 ∷ 0x08 ∷ 0x02
        ∷ 0x08 ∷ 0x02 ∷ 0x02 ∷ 0x02 ∷ 0x08 ∷ 0x08 ∷ [] }
    ensures two_precisions { canonical_blob Full two_precisions ≡ 0x07 ∷ 0x02 ∷ 0x06 ∷ 0x01 ∷ 0xA1
        ∷ 0x02 ∷ 0x02 ∷ 0x02 ∷ 0x02 ∷ [] }
    ensures empty_point { canonical_blob Full empty_point ≡ 0x01 ∷ 0x12 ∷ 0x00 ∷ [] }
    ensures empty_line { canonical_blob Full empty_line ≡ 0x02 ∷ 0x12 ∷ 0x00 ∷ [] }
    ensures empty_part { canonical_blob Full empty_part ≡ 0x05 ∷ 0x02 ∷ 0x02 ∷ 0x01 ∷ 0x00 ∷ [] }
    ensures named_areas { canonical_blob Full named_areas ≡ 0x06 ∷ 0x07 ∷ 0x0D ∷ 0x02 ∷ 0x00 ∷ 0x02
        ∷ 0x00 ∷ 0x02 ∷ 0x06 ∷ 0x08 ∷ 0x02 ∷ 0x01 ∷ 0x02 ∷ 0x02 ∷ 0x00 ∷ 0x00 ∷ [] }
    ensures least_precision { canonical_blob Full least_precision ≡ 0xF1 ∷ 0x02 ∷ 0x02 ∷ 0x04 ∷ 0x02 ∷ [] }
    ensures greatest_precision { canonical_blob Full greatest_precision ≡ 0xE1 ∷ 0x02 ∷ 0x02 ∷ 0x04 ∷ 0x02 ∷ [] }
    ensures two_members { canonical_blob Full two_members ≡ 0x07 ∷ 0x03 ∷ 0x0F ∷ 0x02 ∷ 0x00 ∷ 0x02
        ∷ 0x00 ∷ 0x02 ∷ 0x01 ∷ 0x02 ∷ 0x02 ∷ 0x02 ∷ 0x02 ∷ 0x01 ∷ 0x02 ∷ 0x02 ∷ 0x02 ∷ 0x02 ∷ [] }
    ensures two_places { canonical_blob Full two_places ≡ 0x07 ∷ 0x03 ∷ 0x0F ∷ 0x02 ∷ 0x04 ∷ 0x00
        ∷ 0x02 ∷ 0x02 ∷ 0x01 ∷ 0x02 ∷ 0x02 ∷ 0x02 ∷ 0x02 ∷ 0x01 ∷ 0x02 ∷ 0x02 ∷ 0x06 ∷ 0x00 ∷ [] }
    ensures nine_deep { canonical_blob Full nine_deep ≡ nine_deep_blob }
{}

/// The canonical blobs of some sample geometries in plain style, byte by byte.
#[tactic(auto, unfolding(twkb_num::specs::Spelling::digits, twkb_num::specs::Spelling::digits_within))]
pub fn plain()
    ensures one_point { canonical_blob Plain one_point ≡ 0x01 ∷ 0x00 ∷ 0x04 ∷ 0x02 ∷ [] }
    ensures named_members { canonical_blob Plain named_members ≡ 0x07 ∷ 0x04 ∷ 0x02 ∷ 0x0E ∷ 0x01
        ∷ 0x01 ∷ 0x00 ∷ 0x02 ∷ 0x02 ∷ 0x02 ∷ 0x10 ∷ [] }
    ensures empty_line { canonical_blob Plain empty_line ≡ 0x02 ∷ 0x10 ∷ [] }
    ensures two_rings { canonical_blob Plain two_rings ≡ 0x03 ∷ 0x00 ∷ 0x02 ∷ 0x03 ∷ 0x00 ∷ 0x00
        ∷ 0x08 ∷ 0x00 ∷ 0x07 ∷ 0x08 ∷ 0x03 ∷ 0x02 ∷ 0x05 ∷ 0x02 ∷ 0x00 ∷ 0x01 ∷ 0x02 ∷ [] }
    ensures named_points { canonical_blob Plain named_points ≡ 0x04 ∷ 0x04 ∷ 0x02 ∷ 0x02 ∷ 0x04
        ∷ 0x00 ∷ 0x00 ∷ 0x02 ∷ 0x02 ∷ [] }
{}

/// Blobs of sample geometries that are not their canonical blobs in full style.
pub fn loose()
    ensures no_size { Blob standard (0x02 ∷ 0x00 ∷ 0x02 ∷ 0x02 ∷ 0x02 ∷ 0x08 ∷ 0x08 ∷ []) short_line }
    ensures padded_count { Blob standard (0x02 ∷ 0x00 ∷ 0x82 ∷ 0x00 ∷ 0x02 ∷ 0x02 ∷ 0x08 ∷ 0x08 ∷ []) short_line }
    ensures count_of_none { Blob standard (0x02 ∷ 0x00 ∷ 0x00 ∷ []) empty_line }
    ensures empty_bit { Blob standard (0x02 ∷ 0x10 ∷ []) empty_line }
    ensures size_and_box { Blob standard (0x02 ∷ 0x17 ∷ 0x04 ∷ 0x00 ∷ 0x02 ∷ 0x00 ∷ 0x02 ∷ []) empty_line }
    ensures extended_byte { Blob standard (0x01 ∷ 0x08 ∷ 0x00 ∷ 0x04 ∷ 0x02 ∷ []) one_point }
    ensures high_bits { Blob standard (0x01 ∷ 0xE0 ∷ 0x04 ∷ 0x02 ∷ []) one_point }
    ensures box_of_a_point { Blob standard (0x01 ∷ 0x01 ∷ 0x00 ∷ 0x00 ∷ 0x00 ∷ 0x00 ∷ 0x04 ∷ 0x02 ∷ []) one_point }
    ensures position_is_carried { Blob standard (0x05 ∷ 0x00 ∷ 0x02 ∷ 0x01 ∷ 0x02 ∷ 0x02 ∷ 0x01
        ∷ 0x02 ∷ 0x02 ∷ []) two_lines }
    ensures longest_spelling { Blob standard (0x01 ∷ 0x00 ∷ 0x84 ∷ 0x80 ∷ 0x80 ∷ 0x80 ∷ 0x80 ∷ 0x80
        ∷ 0x80 ∷ 0x80 ∷ 0x80 ∷ 0x00 ∷ 0x02 ∷ []) one_point }
    ensures nine_deep { Blob nest_eight (in_collections 8 bare_collection) nine_deep }
    ensures plain_members { Blob standard (0x07 ∷ 0x04 ∷ 0x02 ∷ 0x0E ∷ 0x01 ∷ 0x01 ∷ 0x00 ∷ 0x02
        ∷ 0x02 ∷ 0x02 ∷ 0x10 ∷ []) named_members }
{}

/// The offset and the reason of the first fault of some bytes, one example for each clause.
pub fn faults()
    ensures cut_line { FirstFault standard (0x02 ∷ 0x00 ∷ 0x02 ∷ 0x02 ∷ 0x02 ∷ 0x08 ∷ []) 6 Truncated }
    ensures wrong_size { FirstFault standard (0x01 ∷ 0x02 ∷ 0x03 ∷ 0x04 ∷ 0x02 ∷ []) 5 SizeMismatch }
    ensures extra_dimensions { FirstFault standard (0x01 ∷ 0x08 ∷ 0x01 ∷ []) 2 ExtraDimensions }
    ensures type_eight { FirstFault standard (0x08 ∷ 0x00 ∷ []) 0 BadType }
    ensures ten_bytes_go_on { FirstFault standard
        (0x01 ∷ 0x00 ∷ 0xFF ∷ 0xFF ∷ 0xFF ∷ 0xFF ∷ 0xFF ∷ 0xFF ∷ 0xFF ∷ 0xFF ∷ 0xFF ∷ 0xFF ∷ []) 2
        BadVarint }
    ensures out_of_range { FirstFault standard (0x01 ∷ 0x00 ∷ 0xFE ∷ 0xFF ∷ 0xFF ∷ 0xFF ∷ 0xFF
        ∷ 0xFF ∷ 0xFF ∷ 0xFF ∷ 0xFF ∷ 0x01 ∷ []) 2 CoordinateRange }
    ensures too_deep { FirstFault no_nest (0x07 ∷ 0x00 ∷ 0x01 ∷ 0x01 ∷ 0x00 ∷ 0x02 ∷ 0x02 ∷ []) 2 TooDeep }
    ensures two_members { FirstFault two_nodes (0x04 ∷ 0x00 ∷ 0x02 ∷ 0x02 ∷ 0x02 ∷ 0x00 ∷ 0x00 ∷ []) 2 TooManyNodes }
    ensures two_points { FirstFault one_point_only
        (0x02 ∷ 0x00 ∷ 0x02 ∷ 0x02 ∷ 0x02 ∷ 0x08 ∷ 0x08 ∷ []) 2 TooManyPoints }
    ensures no_point_allowed { FirstFault no_points (0x01 ∷ 0x00 ∷ 0x04 ∷ 0x02 ∷ []) 1 TooManyPoints }
    ensures second_point { FirstFault one_point_only
        (0x07 ∷ 0x00 ∷ 0x02 ∷ 0x01 ∷ 0x00 ∷ 0x02 ∷ 0x02 ∷ 0x01 ∷ 0x00 ∷ 0x02 ∷ 0x02 ∷ []) 8
        TooManyPoints }
    ensures ten_collections { FirstFault nest_eight (in_collections 9 bare_collection) 26 TooDeep }
    ensures eighteen_collections { FirstFault standard (in_collections 17 bare_collection) 50 TooDeep }
    ensures too_many_points { FirstFault standard
        (0x02 ∷ 0x00 ∷ 0xFF ∷ 0xFF ∷ 0xFF ∷ 0xFF ∷ 0x0F ∷ []) 2 TooManyPoints }
    ensures most_points { FirstFault standard (0x02 ∷ 0x00 ∷ 0x80 ∷ 0x80 ∷ 0x80 ∷ 0x08 ∷ []) 6 Truncated }
    ensures too_many_rings { FirstFault standard (0x03 ∷ 0x00 ∷ 0x80 ∷ 0x80 ∷ 0x40 ∷ []) 2 TooManyNodes }
    ensures most_rings { FirstFault standard (0x03 ∷ 0x00 ∷ 0xFF ∷ 0xFF ∷ 0x3F ∷ []) 5 Truncated }
    ensures greatest_count { FirstFault standard (0x04 ∷ 0x00 ∷ 0xFF ∷ 0xFF ∷ 0xFF ∷ 0xFF ∷ 0xFF
        ∷ 0xFF ∷ 0xFF ∷ 0xFF ∷ 0xFF ∷ 0x01 ∷ []) 2 TooManyNodes }
    ensures count_too_large { FirstFault standard
        (0x04 ∷ 0x00 ∷ 0xFF ∷ 0xFF ∷ 0xFF ∷ 0xFF ∷ 0xFF ∷ 0xFF ∷ 0xFF ∷ 0xFF ∷ 0xFF ∷ 0x02 ∷ []) 2
        BadVarint }
    ensures nine_bytes { FirstFault standard (0x01 ∷ 0x00 ∷ 0xFF ∷ 0xFF ∷ 0xFF ∷ 0xFF ∷ 0xFF ∷ 0xFF
        ∷ 0xFF ∷ 0xFF ∷ 0xFF ∷ []) 2 Truncated }
    ensures size_too_small { FirstFault standard (0x01 ∷ 0x02 ∷ 0x01 ∷ 0x04 ∷ 0x02 ∷ []) 5 SizeMismatch }
    ensures greatest_size { FirstFault standard (0x01 ∷ 0x02 ∷ 0xFF ∷ 0xFF ∷ 0xFF ∷ 0xFF ∷ 0xFF
        ∷ 0xFF ∷ 0xFF ∷ 0xFF ∷ 0xFF ∷ 0x01 ∷ 0x04 ∷ 0x02 ∷ []) 14 SizeMismatch }
    ensures inner_size { FirstFault standard (0x07 ∷ 0x02 ∷ 0x00 ∷ 0x02 ∷ 0x01 ∷ 0x02 ∷ 0x03 ∷ 0x02
        ∷ 0x02 ∷ []) 9 SizeMismatch }
    ensures range_before_size { FirstFault standard
        (0x01 ∷ 0x02 ∷ 0x03 ∷ 0x00 ∷ 0xFE ∷ 0xFF ∷ 0xFF ∷ 0xFF ∷ 0xFF ∷ 0xFF ∷ 0xFF ∷ 0xFF ∷ 0xFF
        ∷ 0x01 ∷ []) 4 CoordinateRange }
    ensures cut_after_five { FirstFault standard (take 5 three_points_blob) 3 Truncated }
    ensures cut_after_seventeen { FirstFault standard (take 17 three_points_blob) 17 Truncated }
    ensures cut_after_thirty_four { FirstFault standard (take 34 three_points_blob) 32 Truncated }
{}

/// Each proper prefix of one sample blob, except the empty one, is truncated at its own end,
/// because each item of the blob has one byte.
pub fn cut()
    ensures { AllByRecursion (λ k. FirstFault standard (take k named_members_blob) k Truncated)
        (1 ∷ 2 ∷ 3 ∷ 4 ∷ 5 ∷ 6 ∷ 7 ∷ 8 ∷ 9 ∷ 10 ∷ 11 ∷ 12 ∷ 13 ∷ 14 ∷ 15 ∷ 16 ∷ 17 ∷ []) }
{}

/// The empty stream has no geometry, and a stream that is cut inside its second point is truncated
/// there.
pub fn streams()
    ensures nothing { Stream standard [] [] }
    ensures cut_point { StreamFault standard (0x01 ∷ 0x00 ∷ 0x04 ∷ 0x02 ∷ 0x01 ∷ 0x00 ∷ 0x04 ∷ [])
        (one_point ∷ []) 7 Truncated }
{}

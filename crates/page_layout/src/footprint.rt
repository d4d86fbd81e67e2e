//! The laws of the pages that a tree is made of.
ghost use Rattle.page_layout.specs.Footprint.{ApartBothWays, ApartByParts, NamesByParts, NoneTwiceByParts, NoneTwiceCounted, OrderIsFree, TimesByParts};

/// Proves the laws of footprints, the lists of a tree's pages: what the pages of its parts end to end
/// name, and in any order. It does nothing when it runs.
pub fn footprint_laws()
    ensures names { NamesByParts }
    ensures none_twice { NoneTwiceByParts }
    ensures apart { ApartByParts }
    ensures both_ways { ApartBothWays }
    ensures any_order { OrderIsFree }
    ensures counted { NoneTwiceCounted }
    ensures times { TimesByParts }
{}

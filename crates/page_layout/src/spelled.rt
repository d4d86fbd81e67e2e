//! Values that pages spell.
ghost use Rattle.std.specs.Prelude.{◌≡◌, ◌≢◌, ◌↔◌, ℕ, List, Some, IfSome, IsTrue, slice_index};
ghost use Rattle.ports.specs.declared.page.TheConstants.{FREE_PAGE};

use ports::Page;

/// A value that one page spells.
pub trait Spelled: Drop {
    /// The rules that a value keeps.
    ghost keeps: { Self → Type 0 };

    /// The numbers are those of their types.
    ghost is_typed: { Self → Type 0 };

    /// The page that the value is spelled by.
    ghost spelling: { Self → List ℕ };

    /// The value that a page may spell.
    ghost value_in: { List ℕ → Self };

    /// Makes the page the value's spelling.
    fn write(&self, page: &mut Page)
        requires { keeps self.now }
        ensures { page.new ≡ spelling self.now };

    /// The value that the page spells, if it spells one.
    fn guess(page: &Page) -> Self
        ensures value { result ≡ value_in page.now }
        ensures typed { is_typed result };

    /// Whether the value keeps the rules.
    fn keeps_rules(&self) -> bool
        ensures { IsTrue result ↔ keeps self.now };

    /// Whether the page spells a value: that which it may spell keeps the rules, and the page is its spelling.
    fn is_spelled(page: &Page) -> bool
        ensures exact { IsTrue result ↔ (keeps (value_in page.now) × (page.now ≡ spelling (value_in page.now))) }
        ensures typed { is_typed (value_in page.now) };

    ghost reads_back: { (x : Self) → is_typed x → keeps x → value_in (spelling x) ≡ x };

    /// The value that the page spells, or `None` exactly where it spells none.
    final fn read(page: &Page) -> Option<Self>
        // What is read keeps the rules, its numbers are those of their types, and the page is its spelling.
        ensures found { IfSome result (λ value. keeps value × is_typed value × (page.now ≡ spelling value)) }
        // Where the page is the spelling of a value, that value is read.
        ensures only { (value : Self) → is_typed value → keeps value → page.now ≡ spelling value → result ≡ Some value }
    {
        if !Self::is_spelled(page) {
            return None;
        }
        Some(Self::guess(page))
    }

    /// Proves that no two values have one spelling; it does nothing when it runs.
    final fn one_spelling()
        ensures { (value other : Self) → is_typed value → keeps value → is_typed other → keeps other
            → spelling value ≡ spelling other → value ≡ other }
    {}
}

/// A page of a tree: it has a level, and does not begin as a free page does.
pub trait TreePage: Spelled {
    ghost level_in: { Self → ℕ };

    /// The level; a leaf has level 1.
    fn level(&self) -> u8
        ensures { result ≡ level_in self.now };

    /// The level of the value that the page may spell.
    fn level_on(page: &Page) -> u8
        ensures { result ≡ level_in (Self.value_in page.now) }
    {
        Self::guess(page).level()
    }

    ghost in_use: { (x : Self) → slice_index (Self.spelling x) 0 ≢ FREE_PAGE };
}

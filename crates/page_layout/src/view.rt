//! Values that are read where their page stands.
ghost use Rattle.std.specs.Prelude.{◌≡◌, IfSome, Some};

use crate::spelled::{Spelled, TreePage};
use ports::Page;
use std::marker::{Model, PhantomData};

/// A page that spells a value, whose fields are read where they stand.
///
/// In contracts it is that value.
#[derive(Drop)]
pub struct View<'a, T: Spelled> {
    pub(crate) page: &'a Page,
    spelled: PhantomData<T>,
}

impl<'a, T: Spelled> Model for View<'a, T> {
    ghost Value = { T };

    ghost view = { λ v. T.value_in v.page.now };

    ghost invariant = { λ v. T.keeps (T.value_in v.page.now) };
}

impl<'a, T: Spelled> View<'a, T> {
    /// The view of the value that the page spells, or `None` exactly where it spells none.
    pub fn on(page: &'a Page) -> Option<View<'a, T>>
        // What is read keeps the rules, its numbers are those of their types, and the page is its spelling.
        ensures found { IfSome result (λ value. T.keeps value × T.is_typed value × (page.now ≡ T.spelling value)) }
        // Where the page is the spelling of a value, that value is read.
        ensures only { (value : T) → T.is_typed value → T.keeps value → page.now ≡ T.spelling value → result ≡ Some value }
    {
        if !T::is_spelled(page) {
            return None;
        }
        Some(View {
            page,
            spelled: PhantomData,
        })
    }

    /// Proves that the value keeps its rules; it does nothing when it runs.
    pub fn keeps_rules(&self)
        ensures { T.keeps self.now }
    {
        let _ = &self.page;
    }

    /// The value itself.
    pub fn to_value(&self) -> T
        ensures { result ≡ self.now }
    {
        T::guess(self.page)
    }
}

impl<'a, T: TreePage> View<'a, T> {
    /// The level; a leaf has level 1.
    pub fn level(&self) -> u8
        ensures { result ≡ T.level_in self.now }
    {
        T::level_on(self.page)
    }
}

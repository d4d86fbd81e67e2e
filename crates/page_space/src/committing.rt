//! A commit of a stage.
ghost use Rattle.std.specs.Prelude.{◌≡◌, ◌⊎◌, ◌+◌, ◌≤◌, ◌<◌, ℕ, length, max, Ok, Err, IsTrue, IsSome, IfOk, OnOk, OnErr};
ghost use Rattle.page_disk.specs.Calls.{Writes, any_error};
ghost use Rattle.page_disk.specs.Since.{LeavesNow, LeavesOnly};
ghost use Rattle.page_cache.specs.Cache.{capacity, kept_pages};
ghost use Rattle.redo_journal.specs.Images.{image_map};
ghost use Rattle.redo_journal.specs.Lengths.{journal_length};
ghost use Rattle.page_space.specs.Renewed.{renewed_by};
ghost use Rattle.page_space.specs.Space.{HoldsSpace};
ghost use Rattle.page_space.specs.Begun.{map_under, OrderedUnder};

use crate::{Space, Staged};
use page_cache::Cache;
use page_disk::Disk;
use redo_journal::{Images, commit};

// Renews each page that has an image.
fn renew_all(cache: &mut Cache, images: &Images)
    ensures pages { (page : ℕ) → kept_pages cache.new page ≡ renewed_by (kept_pages cache.old) (image_map images.now) page }
    ensures capacity { capacity cache.new ≡ capacity cache.old }
{
    let mut rest = images.in_order();
    while let Some((page, image)) = rest.next() {
        cache.renew(page, image);
    }
}

impl<D: Disk> Staged<D> {
    ghost use Rattle.page_space.specs.Shown.{disk_of, params_of, meta_of, begun_of, map_of, chain_of, IsInOrder, base_of, disk_under, staged_images, staged_meta, staged_map, staged_chain, IsStagedInOrder, IsMetaSet, disk_out};

    /// Commits the changes: all of them, or none. `set_meta` has to be the last call that changed the
    /// stage.
    ///
    /// A crash at any moment leaves a disk that stands for the space of before or for the one of the
    /// stage. From Ok on it is the latter. Where the device fails the disk is handed back.
    pub fn commit(self) -> Result<Space<D>, D>
        requires { IsMetaSet self }
        ensures map { IfOk result (λ space. IsTrue (D.tells (disk_under self)) → map_of space ≡ staged_map self) }
        ensures meta { IfOk result (λ space. meta_of space ≡ staged_meta self) }
        ensures params { IfOk result (λ space. params_of space ≡ (base_of self).params) }
        ensures chain { IfOk result (λ space. IsTrue (D.tells (disk_under self)) → chain_of space ≡ staged_chain self) }
        ensures in_order { IfOk result (λ space. IsTrue (D.tells (disk_under self)) → IsStagedInOrder self → IsInOrder space) }
        ensures holds { IfOk result (λ space. IsTrue (D.tells (disk_under self))
            → HoldsSpace (D.image (disk_of space)) (params_of space) (meta_of space) (map_of space) (IsStagedInOrder self)) }
        // Neither area grows further than the pages that are given out, and the images of this commit, need.
        ensures lengths { IfOk result (λ space. IsTrue (D.tells (disk_under self))
            → (length (D.image (disk_of space)).pages ≤ max (length (D.image (disk_under self)).pages) (staged_meta self).allotted)
            × (length (D.image (disk_of space)).journal
            ≤ max (length (D.image (disk_under self)).journal) (journal_length (length (staged_images self))))) }
        ensures settled { IfOk result (λ space. LeavesNow (D.moments (disk_of space)) (D.image (disk_of space))) }
        ensures any_moment { IsTrue (D.tells (disk_under self)) → LeavesOnly (λ x.
            HoldsSpace x (base_of self).params (base_of self).meta (map_under (base_of self)) (OrderedUnder (base_of self))
            ⊎ HoldsSpace x (base_of self).params (staged_meta self) (staged_map self) (IsStagedInOrder self))
            (base_of self).moments (D.moments (disk_out result)) }
        ensures writes { Writes D.Disk any_error 0 (disk_under self) (disk_out result) result }
    {
        let Staged {
            space,
            images,
            meta,
        } = self;
        let Space {
            mut disk,
            mut cache,
            params,
            meta: _,
            alloc,
        } = space;
        if commit(&mut disk, &images).is_err() {
            return Err(disk);
        }
        renew_all(&mut cache, &images);
        Ok(Space {
            disk,
            cache,
            params,
            meta,
            alloc,
        })
    }
}

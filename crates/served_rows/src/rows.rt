//! All points with their addresses.
ghost use Rattle.std.specs.Prelude.{◌≡◌, ◌++◌, ◌∷◌, [], ℕ, IfOk, OnOk, map};
ghost use Rattle.std.specs.List.{flat_map};
ghost use Rattle.gateway.specs.served.Points.{model_points, own_points};
ghost use Rattle.served_rows.specs.Rows.{address_of, addresses_from, after_points, point_of, subject_of, subjects, subjects_from, subjects_of_models};

use crate::row::{MapRow, PointSubject};
use gateway::{OwnPoint, own_point};
use model_defs::ModelDef;
use site_model::Site;
use std::alloc::{AllocError, Global};

/// Points side by side.
#[derive(Drop)]
pub struct MapRows {
    rows: Vec<MapRow>,
    /// The address of the first register.
    first: usize,
    /// The address after the last one.
    next: usize,
    ghost placed: { map address_of rows.items ≡ addresses_from first (map point_of rows.items) },
    ghost ended: { next ≡ after_points first (map point_of rows.items) },
}

impl MapRows {
    fn new(alloc: Global, first: usize) -> MapRows
        ensures none { result.rows.items ≡ [] }
        ensures first { result.first ≡ first }
    {
        MapRows {
            rows: Vec::new(alloc),
            first,
            next: first,
        }
    }

    /// The points, in the order of their addresses.
    pub fn as_slice(&self) -> &[MapRow]
        ensures { result.now ≡ self.now.rows.items }
    {
        &self.rows
    }

    /// One more point, after the others.
    fn push(&mut self, subject: PointSubject, point: OwnPoint) -> Result<(), AllocError>
        ensures points { OnOk result (map point_of self.new.rows.items ≡ map point_of self.old.rows.items ++ point ∷ []) }
        ensures subjects { OnOk result (map subject_of self.new.rows.items ≡ map subject_of self.old.rows.items ++ subject ∷ []) }
        ensures first { self.new.first ≡ self.old.first }
    {
        let address = self.next;
        self.rows.push(MapRow {
            address,
            subject,
            point,
        })?;
        self.next = address.saturating_add(point.registers());
        Ok(())
    }
}

/// The points of a site's own map, each with its address and what it is of. AllocError where memory is refused.
pub fn map_rows(alloc: Global, site: &Site) -> Result<MapRows, AllocError>
    ensures points { IfOk result (λ all. map point_of all.rows.items ≡ own_points site.now) }
    ensures subjects { IfOk result (λ all. map subject_of all.rows.items ≡ subjects site.now) }
    ensures addresses { IfOk result (λ all. map address_of all.rows.items ≡ addresses_from site.now.base (own_points site.now)) }
{
    let mut rows = MapRows::new(alloc, usize::from(site.base()));
    rows.push(PointSubject::Mark, OwnPoint::Word(0x5375))?;
    rows.push(PointSubject::Mark, OwnPoint::Word(0x6E53))?;
    push_models(&mut rows, site)?;
    rows.push(PointSubject::End, OwnPoint::Word(0xFFFF))?;
    rows.push(PointSubject::End, OwnPoint::Word(0))?;
    Ok(rows)
}

fn push_models(rows: &mut MapRows, site: &Site) -> Result<(), AllocError>
    ensures points { OnOk result (map point_of rows.new.rows.items ≡ map point_of rows.old.rows.items ++ flat_map (model_points site.now.served site.now.tags) site.now.models) }
    ensures subjects { OnOk result (map subject_of rows.new.rows.items ≡ map subject_of rows.old.rows.items ++ subjects_of_models 0 site.now.models) }
    ensures first { rows.new.first ≡ rows.old.first }
{
    for (number, model) in site.models().iter().enumerate() {
        push_model(rows, site, number, model)?;
    }
    Ok(())
}

fn push_model(
    rows: &mut MapRows,
    site: &Site,
    number: usize,
    model: &ModelDef,
) -> Result<(), AllocError>
    ensures points { OnOk result (map point_of rows.new.rows.items ≡ map point_of rows.old.rows.items ++ model_points site.now.served site.now.tags model.now) }
    ensures subjects { OnOk result (map subject_of rows.new.rows.items ≡ map subject_of rows.old.rows.items ++ subjects_from number 0 model.now.points) }
    ensures first { rows.new.first ≡ rows.old.first }
{
    for (i, point) in model.points.as_slice().iter().enumerate() {
        let subject = PointSubject::Point {
            model: number,
            point: i,
        };
        let own = own_point(site.served(), site.tags(), model, i, point);
        rows.push(subject, own)?;
    }
    Ok(())
}

//! Handles whose groups have ended.

use crate::desks::ServiceDesks;
use handle_model::{DueItem, Rundown};

impl Rundown for ServiceDesks {
    ghost use Rattle.std.specs.Prelude.{◌≡◌};
    ghost use Rattle.desk_service.specs.Rundowns.{iface_in, without};
    ghost use Rattle.desk_service.specs.Views.{services};

    ghost runs_down = { λ before item after. services after ≡ without (services before) (iface_in item.kind) };

    fn rundown(&mut self, item: DueItem) {
        match item.kind / (1 << 16) {
            1 => self.store.rundown(item),
            2 => self.endpoints.rundown(item),
            // Management and the echo keep nothing behind handles.
            3 => {}
            4 if self.echo.is_some() => {}
            _ => self.probe.rundown(item),
        }
    }
}

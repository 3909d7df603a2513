// The units that a duration is counted by, as signed numbers.
ghost use Rattle.std.specs.Prelude.{pos, ◌<ℤ◌, ◌≤ℤ◌};
ghost use Rattle.units.specs.Table.{ns};
ghost use Rattle.units.specs.declared.unit.Unit.TheVariants.{Second};
ghost use Rattle.durations.specs.Totals.{PerSecond};

// A unit smaller than a second: how many make one, of so many nanoseconds each.
#[derive(Clone, Copy)]
pub(crate) struct FineUnit {
    pub(crate) per_sec: i64,
    pub(crate) nanos: i32,
    ghost second: { PerSecond per_sec nanos },
}

// A unit of so many whole seconds.
#[derive(Clone, Copy)]
pub(crate) struct WholeUnit {
    pub(crate) secs: i64,
    ghost some: { pos 0 <ℤ secs },
    ghost few: { secs ≤ℤ pos (ns Second) },
}

pub(crate) const MILLISECOND: FineUnit = FineUnit {
    per_sec: units::MILLIS_PER_SEC as i64,
    nanos: units::NANOS_PER_MILLI as i32,
};

pub(crate) const MICROSECOND: FineUnit = FineUnit {
    per_sec: units::MICROS_PER_SEC as i64,
    nanos: units::NANOS_PER_MICRO as i32,
};

pub(crate) const NANOSECOND: FineUnit = FineUnit {
    per_sec: units::NANOS_PER_SEC as i64,
    nanos: 1,
};

pub(crate) const SECOND: WholeUnit = WholeUnit { secs: 1 };

pub(crate) const MINUTE: WholeUnit = WholeUnit {
    secs: units::SECS_PER_MINUTE as i64,
};

pub(crate) const HOUR: WholeUnit = WholeUnit {
    secs: units::SECS_PER_HOUR as i64,
};

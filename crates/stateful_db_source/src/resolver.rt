//! What databases can be attached to, so that peers' requests are answered from them.

use stateful_types::OutOfMemory;

/// What a database can be attached to, so that peers' requests are answered from it.
pub trait AttachableResolver<DB>: Sized {
    ghost use Rattle.std.specs.Prelude.{◌≡◌, OnOk, OnErr};

    /// The database is on its way to the resolver.
    ghost attaches: { Self → DB → Self → Type 0 };

    /// Attaches a database, in place of an earlier one.
    fn attach_database(&mut self, db: DB) -> Result<(), OutOfMemory>
        ensures ok { OnOk result (attaches self.old db self.new) }
        ensures err { OnErr result (self.new ≡ self.old) };
}

/// Resolvers to which a set of databases can be attached, each to its own: one resolver, or a pair
/// of one and of further ones, as the databases are one, or a pair of one and of further ones.
pub trait AttachableResolverSet<DBs>: Sized {
    ghost use Rattle.std.specs.Prelude.{OnOk, OnErr};

    /// Each database is on its way to its resolver.
    ghost attaches_each: { Self → DBs → Self → Type 0 };

    /// The first databases are on their way, and the others aren't.
    ghost attaches_some: { Self → DBs → Self → Type 0 };

    /// Attaches each database to its resolver, left to right, in place of an earlier one.
    fn attach_databases(&mut self, databases: DBs) -> Result<(), OutOfMemory>
        ensures ok { OnOk result (attaches_each self.old databases self.new) }
        ensures err { OnErr result (attaches_some self.old databases self.new) };
}

impl<R: AttachableResolver<DB>, DB> AttachableResolverSet<DB> for R {
    ghost use Rattle.std.specs.Prelude.{◌≡◌};

    ghost attaches_each = { R.attaches };

    ghost attaches_some = { λ old db new. new ≡ old };

    fn attach_databases(&mut self, databases: DB) -> Result<(), OutOfMemory> {
        self.attach_database(databases)
    }
}

impl<R, Rest, DB, DBs> AttachableResolverSet<(DB, DBs)> for (R, Rest)
where
    R: AttachableResolver<DB>,
    Rest: AttachableResolverSet<DBs>,
    DBs: Drop,
{
    ghost use Rattle.std.specs.Prelude.{◌≡◌, ◌⊎◌};

    ghost attaches_each = { λ old databases new. R.attaches old.0 databases.0 new.0
        × Rest.attaches_each old.1 databases.1 new.1 };

    ghost attaches_some = { λ old databases new. (new ≡ old)
        ⊎ (R.attaches old.0 databases.0 new.0 × Rest.attaches_some old.1 databases.1 new.1) };

    fn attach_databases(&mut self, databases: (DB, DBs)) -> Result<(), OutOfMemory> {
        let (first, rest) = databases;
        self.0.attach_database(first)?;
        self.1.attach_databases(rest)
    }
}

// All sockets that peers share, as their ports and the poller call them.
ghost use Rattle.std.specs.Prelude.{◌≤◌};
ghost use Rattle.socket_ports.specs.Pollers.{Extends};

use crate::crowd::Crowd;
use crate::socket::UdpLink;
use port_trait::KeyList;
use relay_model::NoMemory;
use std::alloc::Global;
use std::sync::{Arc, Mutex};

/// The crowds, each at a place that it keeps.
#[derive(Drop)]
pub(crate) struct Crowds {
    places: Vec<Option<Crowd<UdpLink>>>,
}

impl Crowds {
    /// Puts the crowd at a free place, and answers that.
    pub(crate) fn add(&mut self, crowd: Crowd<UdpLink>) -> Result<usize, NoMemory> {
        for place in 0..self.places.len() {
            if self.places[place].is_none() {
                self.places[place] = Some(crowd);
                return Ok(place);
            }
        }
        let place = self.places.len();
        self.places.push(Some(crowd))?;
        Ok(place)
    }

    /// The crowd at this place.
    pub(crate) fn at(&mut self, place: usize) -> Option<&mut Crowd<UdpLink>> {
        self.places.get_mut(place)?.as_mut()
    }

    /// Lets the crowd at this place go with its socket, once nobody is left of it.
    pub(crate) fn clear(&mut self, place: usize) {
        if let Some(place) = self.places.get_mut(place)
            && is_deserted(place)
        {
            *place = None;
        }
    }

    fn stir(&mut self) {
        for place in self.places.iter_mut() {
            if let Some(crowd) = place {
                crowd.stir();
            }
        }
    }

    fn is_waited_for(&self) -> bool {
        for place in self.places.iter() {
            if let Some(crowd) = place
                && crowd.is_waited_for()
            {
                return true;
            }
        }
        false
    }

    fn gather(&mut self, ready: &mut KeyList)
        requires { 256 ≤ ready.old.room }
        ensures { Extends ready.old ready.new }
    {
        for place in self.places.iter_mut() {
            if let Some(crowd) = place {
                crowd.gather(ready);
            }
        }
    }
}

fn is_deserted(place: &Option<Crowd<UdpLink>>) -> bool {
    match place {
        Some(crowd) => crowd.is_deserted(),
        None => false,
    }
}

/// The crowds of a run. The loop alone calls them, so the lock is always free.
#[derive(Drop)]
pub struct Gathering {
    crowds: Arc<Mutex<Crowds>, Global>,
}

impl Gathering {
    /// No crowds.
    pub fn new(alloc: Global) -> Result<Gathering, NoMemory> {
        let crowds = Crowds {
            places: Vec::new(alloc),
        };
        match Arc::new(alloc, Mutex::new(crowds)) {
            Ok(crowds) => Ok(Gathering { crowds }),
            Err(_) => Err(NoMemory),
        }
    }

    /// The same crowds.
    pub(crate) fn share(&self) -> Result<Gathering, NoMemory> {
        match Arc::try_clone(&self.crowds) {
            Ok(crowds) => Ok(Gathering { crowds }),
            Err(_) => Err(NoMemory),
        }
    }

    /// Puts the crowd at a free place, and answers that.
    pub(crate) fn add(&self, crowd: Crowd<UdpLink>) -> Result<usize, NoMemory> {
        match self.crowds.try_lock() {
            Some(mut crowds) => crowds.add(crowd),
            None => Err(NoMemory),
        }
    }

    /// The crowds, for one call.
    pub(crate) fn crowds(&self) -> &Mutex<Crowds> {
        &self.crowds
    }

    /// The sockets may have packets.
    pub(crate) fn stir(&self) {
        if let Some(mut crowds) = self.crowds.try_lock() {
            crowds.stir();
        }
    }

    /// Whether there is something to be named, or may be.
    pub(crate) fn is_waited_for(&self) -> bool {
        match self.crowds.try_lock() {
            Some(crowds) => crowds.is_waited_for(),
            None => true,
        }
    }

    /// Takes what the sockets have, and names the ports that got something, as far as they fit.
    #[tactic(auto, using(crate::proofs::Appending::extends_none))]
    pub(crate) fn gather(&self, ready: &mut KeyList)
        requires { 256 ≤ ready.old.room }
        ensures { Extends ready.old ready.new }
    {
        if let Some(mut crowds) = self.crowds.try_lock() {
            crowds.gather(ready);
        }
    }
}
